use crate::{Ask, Document, Kind, Place, Stands, Tree, Verdict, check};
use serde_json::Value;
use std::alloc::Global;

// What is changed in the tree below.
#[derive(Clone, Copy)]
enum Change {
    Nothing,
    Name(usize, &'static str),
    Up(usize, Option<usize>),
    Version(usize, &'static str),
    Target(usize, usize),
    PlaceRules(usize, usize),
    Spec(usize, &'static str),
    AskKind(usize, Kind),
    Bundled(usize),
    Workspace(usize, usize),
    LeftOut(Option<usize>),
}

const ROOT: &str = r#"{"name": "r"}"#;

const WORKSPACE: &str = r#"{"name": "w", "version": "3.0.0"}"#;

const VERSIONS: &str = r#"{"versions": {"1.0.0": {}, "1.2.0": {}, "2.0.0": {}}}"#;

fn places_of<'d>(
    alloc: Global,
    root: &'d Value,
    workspace: &'d Value,
    change: Change,
) -> Option<Vec<Place<'d>>> {
    let package = |name, up, document, version| Place {
        name,
        up: Some(up),
        stands: Stands::Package { document, version },
        rules: 0,
    };
    let manifest = root;
    let top = Place {
        name: "r",
        up: None,
        stands: Stands::Top { at: "", manifest },
        rules: 0,
    };
    let manifest = workspace;
    let below = Place {
        name: "w",
        up: Some(0),
        stands: Stands::Top { at: "w", manifest },
        rules: 0,
    };
    let link = Place {
        name: "a",
        up: Some(3),
        stands: Stands::Link { to: 2 },
        rules: 0,
    };
    let all = [
        top,
        below,
        package("a", 0, 0, "1.0.0"),
        package("b", 2, 1, "1.2.0"),
        package("p", 0, 2, "2.0.0"),
        link,
    ];
    let mut places = Vec::new(alloc);
    for (number, place) in all.iter().enumerate() {
        places.push(changed_place(number, *place, change)).ok()?;
    }
    Some(places)
}

// The root depends on the workspace `w`, on `a`, and by choice on `z`, which is left out. `a` has `b` in it, and `b` links to `a`.
fn asks_of(alloc: Global, change: Change) -> Option<Vec<Ask<'static>>> {
    let ask = |from, name, kind, spec| Ask {
        from,
        name,
        kind,
        spec,
        rules: 0,
        bundled: false,
        workspace: None,
    };
    let mut all = [
        ask(0, "w", Kind::Needed, "file:w"),
        ask(0, "a", Kind::Needed, "^1.0.0"),
        ask(0, "z", Kind::Optional, "^9.0.0"),
        ask(1, "p", Kind::Dev, "npm:p@^2.0.0"),
        ask(2, "b", Kind::Needed, "~1.2.0"),
        ask(2, "p", Kind::Peer, ">=2.0.0"),
        ask(3, "a", Kind::Needed, "1.0.0"),
    ];
    all[0].workspace = Some(1);
    let mut asks = Vec::new(alloc);
    for (number, ask) in all.iter().enumerate() {
        asks.push(changed_ask(number, *ask, change)).ok()?;
    }
    Some(asks)
}

// The place with this number, changed.
fn changed_place<'d>(number: usize, place: Place<'d>, change: Change) -> Place<'d> {
    match change {
        Change::Name(at, name) if at == number => Place { name, ..place },
        Change::Up(at, up) if at == number => Place { up, ..place },
        Change::Version(at, version) if at == number => {
            let stands = Stands::Package {
                document: 0,
                version,
            };
            Place { stands, ..place }
        }
        Change::Target(at, to) if at == number => {
            let stands = Stands::Link { to };
            Place { stands, ..place }
        }
        Change::PlaceRules(at, rules) if at == number => Place { rules, ..place },
        _ => place,
    }
}

// The dependency with this number, changed.
fn changed_ask<'d>(number: usize, ask: Ask<'d>, change: Change) -> Ask<'d> {
    match change {
        Change::Spec(at, spec) if at == number => Ask { spec, ..ask },
        Change::AskKind(at, kind) if at == number => Ask { kind, ..ask },
        Change::Bundled(at) if at == number => Ask {
            bundled: true,
            ..ask
        },
        Change::Workspace(at, place) if at == number => Ask {
            workspace: Some(place),
            ..ask
        },
        _ => ask,
    }
}

fn left_out_of(alloc: Global, change: Change) -> Option<Vec<usize>> {
    match change {
        Change::LeftOut(Some(number)) => Vec::from_slice(alloc, &[number]).ok(),
        Change::LeftOut(None) => Some(Vec::new(alloc)),
        _ => Vec::from_slice(alloc, &[2]).ok(),
    }
}

fn outcome(alloc: Global, change: Change) -> Option<Verdict> {
    let root = Value::from_str(alloc, ROOT).ok()?;
    let workspace = Value::from_str(alloc, WORKSPACE).ok()?;
    let versions = Value::from_str(alloc, VERSIONS).ok()?;
    verdict_of(alloc, &root, &workspace, &versions, change)
}

fn verdict_of<'d>(
    alloc: Global,
    root: &'d Value,
    workspace: &'d Value,
    value: &'d Value,
    change: Change,
) -> Option<Verdict> {
    let documents = [
        Document { name: "a", value },
        Document { name: "b", value },
        Document { name: "p", value },
    ];
    let places = places_of(alloc, root, workspace, change)?;
    let asks = asks_of(alloc, change)?;
    let left_out = left_out_of(alloc, change)?;
    let tree = Tree {
        places,
        asks,
        left_out,
    };
    check(alloc, &tree, &documents).ok()
}

type Row = (Change, Verdict);

const ROWS: &[Row] = &[
    (Change::Nothing, Verdict::IsTree),
    // The places.
    (Change::Up(0, Some(0)), Verdict::NotWhole),
    (Change::Up(2, None), Verdict::NotWhole),
    (Change::Up(2, Some(4)), Verdict::NotWhole),
    (Change::Up(3, Some(5)), Verdict::NotWhole),
    (Change::Up(1, Some(2)), Verdict::NotWhole),
    (Change::Name(4, "a"), Verdict::NotWhole),
    (Change::Version(2, "3.0.0"), Verdict::NotWhole),
    (Change::Target(5, 4), Verdict::NotWhole),
    (Change::Target(5, 0), Verdict::NotWhole),
    (Change::PlaceRules(5, 1), Verdict::NotWhole),
    // What the dependencies see.
    (Change::Version(2, "2.0.0"), Verdict::NotMet),
    (Change::Name(3, "c"), Verdict::NotMet),
    (Change::Up(4, Some(2)), Verdict::NotMet),
    (Change::PlaceRules(4, 1), Verdict::NotMet),
    (Change::PlaceRules(3, 1), Verdict::NotMet),
    (Change::Spec(1, "^2.0.0"), Verdict::NotMet),
    (Change::Spec(5, "latest"), Verdict::IsTree),
    (Change::Spec(6, "latest"), Verdict::NotMet),
    (Change::Spec(6, "*"), Verdict::IsTree),
    (Change::Spec(4, "github:b/b"), Verdict::NotMet),
    (Change::AskKind(2, Kind::Needed), Verdict::NotMet),
    (Change::AskKind(2, Kind::Peer), Verdict::NotMet),
    (Change::Workspace(0, 4), Verdict::NotMet),
    // What is reached.
    (Change::Spec(4, "npm:c@^1.0.0"), Verdict::NotReached),
    (Change::Bundled(6), Verdict::NotReached),
    // What is left out.
    (Change::LeftOut(None), Verdict::NotLeftOut),
    (Change::LeftOut(Some(1)), Verdict::NotLeftOut),
    (Change::LeftOut(Some(7)), Verdict::NotLeftOut),
    (Change::AskKind(2, Kind::OptionalPeer), Verdict::NotLeftOut),
    (Change::Bundled(2), Verdict::NotLeftOut),
];

#[test]
fn tells_what_is_wrong_with_a_tree(rt: HostRuntime) {
    for (change, verdict) in ROWS {
        let found = outcome(rt.alloc(), *change);
        assert!(rt; found == Some(*verdict), "{found:?} {verdict:?}");
    }
}

// Each package is in the folder of the root, and asks for the next one by a name of 4 digits.
fn large(alloc: Global, count: usize) -> Option<Verdict> {
    let root = Value::from_str(alloc, ROOT).ok()?;
    let versions = Value::from_str(alloc, VERSIONS).ok()?;
    let mut names = Vec::new(alloc);
    for number in 0..count {
        names.push(format!(in alloc; "{number}").ok()?).ok()?;
    }
    let mut documents = Vec::new(alloc);
    let mut places = Vec::new(alloc);
    let mut asks = Vec::new(alloc);
    places
        .push(Place {
            name: "r",
            up: None,
            stands: Stands::Top {
                at: "",
                manifest: &root,
            },
            rules: 0,
        })
        .ok()?;
    for (number, name) in names.iter().enumerate() {
        let name = name.as_str();
        documents
            .push(Document {
                name,
                value: &versions,
            })
            .ok()?;
        places
            .push(Place {
                name,
                up: Some(0),
                stands: Stands::Package {
                    document: number,
                    version: "1.2.0",
                },
                rules: 0,
            })
            .ok()?;
        asks.push(Ask {
            from: number,
            name,
            kind: Kind::Needed,
            spec: "^1.0.0",
            rules: 0,
            bundled: false,
            workspace: None,
        })
        .ok()?;
    }
    let left_out = Vec::new(alloc);
    let tree = Tree {
        places,
        asks,
        left_out,
    };
    check(alloc, &tree, &documents).ok()
}

#[test]
fn checks_a_large_tree(rt: HostRuntime) {
    assert!(rt; large(rt.alloc(), 2500) == Some(Verdict::IsTree));
}
