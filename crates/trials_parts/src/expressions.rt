use crate::fixtures::let_go;
use sig_diff::{Items, NoMemory, TryCopy};
use sig_expr::{Contents, Shown, View, eval_view, leaves};
use sig_script::{Script, SourceDef, read_script};
use std::alloc::Global;
use std::test::Fail;

/// A view of each form.
const SCRIPT: &str = r#"{"version":1,
"sources":[{"name":"a","vector":[4,1,3]},{"name":"b","vector":[-5,9223372036854775807]},
{"name":"c","cell":1},{"name":"d","cell":0},{"name":"e","cell":-9223372036854775808},{"name":"m","map":[[1,10],[3,-30]]}],
"writers":[],
"views":[
{"name":"v0","vector":{"map":{"add":1},"of":{"filter":{"not":"even"},"of":{"vector":"a"}}}},
{"name":"v1","vector":{"sorted":{"rem":3},"of":{"vector":"a"}}},
{"name":"v2","vector":{"of":{"vector":"a"},"filter_by":[{"cell":"c"},{"cell":"d"}]}},
{"name":"v3","vector":{"of":{"vector":"a"},"map_by":[{"cell":"c"},{"cell":"e"}]}},
{"name":"v4","vector":{"concat":[{"vector":"a"},{"vector":"b"}]}},
{"name":"v5","vector":{"flatten":{"vector":"a"},"bank":[{"vector":"a"},{"vector":"b"}]}},
{"name":"v6","vector":{"pick":{"cell":"e"},"bank":[{"vector":"a"},{"vector":"b"}]}},
{"name":"v7","vector":{"concat":[{"keys":{"map":"m"}},{"values":{"map":"m"}}]}},
{"name":"v8","signal":{"map":"neg","of":{"cell":"e"}}},
{"name":"v9","signal":{"dedupe":{"switch":{"cell":"c"},"bank":[{"cell":"d"},{"cell":"e"}]}}},
{"name":"v10","signal":{"sum":{"concat":[{"vector":"b"},{"vector":"b"}]}}},
{"name":"v11","signal":{"switch":{"len":{"vector":"a"}},"bank":[{"cell":"c"},{"key":3,"default":-1,"of":{"map":"m"}}]}},
{"name":"v12","signal":{"key":2,"default":-1,"of":{"map":"m"}}},
{"name":"v13","map":{"map_value":{"mul":3},"of":{"map":"m"}}},
{"name":"v14","entries":{"map":"m"}},
{"name":"v15","enumerate":{"vector":"a"}}]}"#;

/// What is to be shown.
#[derive(Clone, Copy)]
enum Wanted {
    Value(i64),
    List(&'static [i64]),
    /// A map's entries, as a map or as a list of pairs.
    Entries(&'static [(i64, i64)]),
}

/// What the views show at the sources' start. A list with tags is shown without them.
const WANTED: [Wanted; 16] = [
    Wanted::List(&[2, 4]),
    Wanted::List(&[3, 1, 4]),
    Wanted::List(&[4]),
    Wanted::List(&[5, -9223372036854775807, -9223372036854775805]),
    Wanted::List(&[4, 1, 3, -5, 9223372036854775807]),
    Wanted::List(&[4, 1, 3, -5, 9223372036854775807, -5, 9223372036854775807]),
    Wanted::List(&[4, 1, 3]),
    Wanted::List(&[1, 3, 10, -30]),
    Wanted::Value(9223372036854775807),
    Wanted::Value(-9223372036854775808),
    Wanted::Value(9223372036854775807),
    Wanted::Value(-30),
    Wanted::Value(-1),
    Wanted::Entries(&[(1, 30), (3, -90)]),
    Wanted::Entries(&[(1, 10), (3, -30)]),
    Wanted::List(&[4, 1, 3]),
];

fn is_wanted(shown: &Shown, wanted: Wanted) -> bool {
    match (shown, wanted) {
        (Shown::Signal(value), Wanted::Value(wanted)) => *value == wanted,
        (Shown::Vector(items), Wanted::List(wanted)) => items.as_slice() == wanted,
        (Shown::Map(entries), Wanted::Entries(wanted)) => entries.as_slice() == wanted,
        (Shown::Pairs(pairs), Wanted::Entries(wanted)) => pairs.as_slice() == wanted,
        _ => false,
    }
}

/// What the sources of these numbers start with.
fn starts(alloc: Global, sources: &[SourceDef], numbers: &[usize]) -> Result<Contents, NoMemory> {
    let mut starts = Items::new(alloc);
    for number in numbers {
        if let Some(source) = sources.get(*number) {
            starts.push(source.start.copy()?)?;
        }
    }
    Ok(starts)
}

/// What a view shows at the sources' start, where each of its leaves has a source.
fn shown(alloc: Global, sources: &[SourceDef], view: &View) -> Result<Option<Shown>, NoMemory> {
    let leaves = leaves(alloc, view)?;
    let contents = starts(alloc, sources, leaves.as_slice())?;
    if contents.len() == leaves.len() {
        Ok(Some(eval_view(alloc, view, &contents)?))
    } else {
        Ok(None)
    }
}

/// Whether the copy of a view shows what is wanted.
fn shows(
    alloc: Global,
    sources: &[SourceDef],
    view: &View,
    wanted: Wanted,
) -> Result<bool, NoMemory> {
    let copy = view.copy()?;
    let shown = shown(alloc, sources, &copy);
    let_go(copy);
    Ok(matches!(&shown?, Some(shown) if is_wanted(shown, wanted)))
}

/// How many views show what is wanted of them.
fn count_shown(alloc: Global, script: &Script) -> Result<usize, NoMemory> {
    let mut count = 0_usize;
    for (def, wanted) in script.views.as_slice().iter().zip(WANTED) {
        if shows(alloc, script.sources.as_slice(), &def.view, wanted)? {
            count = count.saturating_add(1);
        }
    }
    Ok(count)
}

#[test]
fn a_view_of_each_form_is_computed_whole(rt: HostRuntime) -> Result<(), Fail> {
    let script = read_script(rt.alloc(), SCRIPT.as_bytes())?;
    let count = count_shown(rt.alloc(), &script);
    let_go(script);
    assert_eq!(rt; count?, 16);
    Ok(())
}
