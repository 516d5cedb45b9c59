ghost use Rattle.std.specs.Prelude.{◌<◌};

use semver_cuts::Stepped;
use std::alloc::{AllocError, Global};

// A number of eight bits.
#[derive(Clone, Copy, PartialEq, Eq, PartialOrd, Ord)]
struct Byte {
    number: u8,
}

impl Stepped for Byte {
    ghost is_value = { λ byte. byte.number < 256 };

    fn known(&self) {
        let _number = self.number;
    }

    fn least(_alloc: Global) -> Result<Byte, AllocError> {
        Ok(Byte { number: 0 })
    }

    fn next(&self, _alloc: Global) -> Result<Option<Byte>, AllocError> {
        Ok(self.number.checked_add(1).map(|number| Byte { number }))
    }
}

// The third value of a type, if it has three.
fn third<T: Stepped + Drop>(alloc: Global) -> Result<Option<T>, AllocError> {
    let least = T::least(alloc)?;
    least.known();
    match least.next(alloc)? {
        Some(second) => second.next(alloc),
        None => Ok(None),
    }
}

#[test]
fn steps_from_the_least_number(rt: HostRuntime) {
    assert!(rt; matches!(third::<Byte>(rt.alloc()), Ok(Some(Byte { number: 2 }))));
    assert!(rt;
        matches!(
            Byte { number: 254 }.next(rt.alloc()),
            Ok(Some(Byte { number: 255 }))
        )
    );
    assert!(rt; matches!(Byte { number: 255 }.next(rt.alloc()), Ok(None)));
}
