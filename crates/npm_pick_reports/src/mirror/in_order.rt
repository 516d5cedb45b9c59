//! Texts in order.
ghost use Rattle.std.specs.Prelude.{◌↔◌, List, ℕ, map, string_bytes};
ghost use Rattle.std.specs.Cmp.Lexicographic.{slice_cmp};
ghost use Rattle.std.specs.List.{Contains};
ghost use Rattle.std.specs.List.Sorted.{IsStrictlySortedBy};
ghost use Rattle.std.specs.Ordering.{nat_cmp};

/// Puts texts in the order of their bytes, each once.
pub fn put_in_order(texts: &mut Vec<String>)
    ensures ordered { IsStrictlySortedBy (slice_cmp nat_cmp) (map string_bytes texts.new.items) }
    ensures exact { (text : List ℕ) → Contains (map string_bytes texts.new.items) text
        ↔ Contains (map string_bytes texts.old.items) text }
{
    texts.sort_unstable();
    texts.dedup();
}
