ghost use Rattle.std.specs.Prelude.{◌≡◌, ◌++◌, ℕ, List, codes, map, OnOk};
ghost use Rattle.std.specs.List.{flat_map};
ghost use Rattle.sig_report.specs.Text.{joined, each_after, entry_text, given_text};

use itoa::Buffer;
use sig_diff::{Entries, Items, MapDiff, NoMemory, Tagged, VecDiff};

/// What has a text in a report.
pub trait Printed {
    ghost text: { Self → List ℕ };

    /// Puts the text at the end.
    fn print(&self, out: &mut Vec<u8>) -> Result<(), NoMemory>
        ensures { OnOk result (out.new.items ≡ out.old.items ++ text self.now) };
}

impl Printed for i64 {
    ghost use Rattle.std.specs.Fmt.{signed_decimal};

    ghost text = { signed_decimal };

    fn print(&self, out: &mut Vec<u8>) -> Result<(), NoMemory> {
        out.extend_from_slice(Buffer::new().format(*self).as_bytes())
    }
}

impl Printed for u32 {
    ghost use Rattle.std.specs.Prelude.{decimal};

    ghost text = { decimal };

    fn print(&self, out: &mut Vec<u8>) -> Result<(), NoMemory> {
        out.extend_from_slice(Buffer::new().format(*self).as_bytes())
    }
}

impl Printed for (i64, i64) {
    ghost use Rattle.sig_report.specs.Text.{pair_text};

    ghost text = { pair_text };

    fn print(&self, out: &mut Vec<u8>) -> Result<(), NoMemory> {
        print_one(out, b"(", &self.0)?;
        print_one(out, b", ", &self.1)?;
        out.extend_from_slice(b")")
    }
}

impl Printed for Tagged {
    ghost use Rattle.sig_report.specs.Text.{tagged_text};

    ghost text = { tagged_text };

    fn print(&self, out: &mut Vec<u8>) -> Result<(), NoMemory> {
        out.extend_from_slice(b"#")?;
        out.extend_from_slice(Buffer::new().format(self.tag).as_bytes())?;
        print_one(out, b" ", &self.value)
    }
}

impl<T: Printed> Printed for Items<T> {
    ghost use Rattle.sig_report.specs.Text.{list_text};

    ghost text = { list_text T.text };

    fn print(&self, out: &mut Vec<u8>) -> Result<(), NoMemory> {
        out.extend_from_slice(b"[")?;
        print_joined(out, b", ", self.as_slice())?;
        out.extend_from_slice(b"]")
    }
}

impl Printed for Entries<i64> {
    ghost use Rattle.sig_report.specs.Text.{map_text};

    ghost text = { map_text };

    fn print(&self, out: &mut Vec<u8>) -> Result<(), NoMemory> {
        out.extend_from_slice(b"{")?;
        match self.as_slice() {
            [] => {}
            [first, rest @ ..] => {
                print_entry(out, first)?;
                print_entries(out, rest)?;
            }
        }
        out.extend_from_slice(b"}")
    }
}

impl<T: Printed> Printed for VecDiff<T> {
    ghost use Rattle.sig_report.specs.Text.{diff_text};

    ghost text = { diff_text T.text };

    fn print(&self, out: &mut Vec<u8>) -> Result<(), NoMemory> {
        match self {
            VecDiff::Replace { values } => print_one(out, b"replace ", values),
            VecDiff::InsertAt { index, value } => print_two(out, b"insert ", index, value),
            VecDiff::UpdateAt { index, value } => print_two(out, b"update ", index, value),
            VecDiff::RemoveAt { index } => print_one(out, b"remove ", index),
            VecDiff::Move {
                old_index,
                new_index,
            } => print_two(out, b"move ", old_index, new_index),
            VecDiff::Push { value } => print_one(out, b"push ", value),
            VecDiff::Pop => out.extend_from_slice(b"pop"),
            VecDiff::Clear => out.extend_from_slice(b"clear"),
        }
    }
}

impl Printed for MapDiff<i64> {
    ghost use Rattle.sig_report.specs.Text.{map_diff_text};

    ghost text = { map_diff_text };

    fn print(&self, out: &mut Vec<u8>) -> Result<(), NoMemory> {
        match self {
            MapDiff::Replace { entries } => print_one(out, b"replace ", entries),
            MapDiff::Insert { key, value } => print_two(out, b"insert ", key, value),
            MapDiff::Update { key, value } => print_two(out, b"update ", key, value),
            MapDiff::Remove { key } => print_one(out, b"remove ", key),
            MapDiff::Clear => out.extend_from_slice(b"clear"),
        }
    }
}

/// A word and what follows it.
pub fn print_one<T: Printed>(out: &mut Vec<u8>, word: &[u8], item: &T) -> Result<(), NoMemory>
    ensures { OnOk result (out.new.items ≡ out.old.items ++ word.now ++ T.text item.now) }
{
    out.extend_from_slice(word)?;
    item.print(out)
}

/// A word and the two things that follow it, with a space between.
pub fn print_two<T: Printed, U: Printed>(
    out: &mut Vec<u8>,
    word: &[u8],
    first: &T,
    second: &U,
) -> Result<(), NoMemory>
    ensures { OnOk result (out.new.items
        ≡ out.old.items ++ word.now ++ T.text first.now ++ codes " " ++ U.text second.now) }
{
    print_one(out, word, first)?;
    print_one(out, b" ", second)
}

/// Several things with a text between each two.
pub fn print_joined<T: Printed>(
    out: &mut Vec<u8>,
    separator: &[u8],
    items: &[T],
) -> Result<(), NoMemory>
    ensures { OnOk result (out.new.items
        ≡ out.old.items ++ joined separator.now (map T.text items.now)) }
{
    match items {
        [] => Ok(()),
        [first, rest @ ..] => {
            first.print(out)?;
            print_rest(out, separator, rest)
        }
    }
}

/// Several things with a text before each.
fn print_rest<T: Printed>(out: &mut Vec<u8>, separator: &[u8], items: &[T]) -> Result<(), NoMemory>
    ensures { OnOk result (out.new.items
        ≡ out.old.items ++ each_after separator.now (map T.text items.now)) }
{
    'items: for item in items {
        print_one(out, separator, item)?;
    }
    Ok(())
}

/// Several things, one after another.
pub fn print_all<T: Printed>(out: &mut Vec<u8>, items: &[T]) -> Result<(), NoMemory>
    ensures { OnOk result (out.new.items ≡ out.old.items ++ flat_map T.text items.now) }
{
    'items: for item in items {
        item.print(out)?;
    }
    Ok(())
}

/// What a row gives: `moved` where that is nothing.
pub fn print_given<T: Printed>(out: &mut Vec<u8>, diffs: &[T]) -> Result<(), NoMemory>
    ensures { OnOk result (out.new.items ≡ out.old.items ++ given_text T.text diffs.now) }
{
    if diffs.is_empty() {
        return out.extend_from_slice(b"moved");
    }
    print_joined(out, b"; ", diffs)
}

fn print_entry(out: &mut Vec<u8>, entry: &(i64, i64)) -> Result<(), NoMemory>
    ensures { OnOk result (out.new.items ≡ out.old.items ++ entry_text entry.now) }
{
    entry.0.print(out)?;
    print_one(out, b": ", &entry.1)
}

/// A map's entries with a comma before each.
fn print_entries(out: &mut Vec<u8>, entries: &[(i64, i64)]) -> Result<(), NoMemory>
    ensures { OnOk result (out.new.items ≡ out.old.items ++ each_after (codes ", ") (map entry_text entries.now)) }
{
    'entries: for entry in entries {
        out.extend_from_slice(b", ")?;
        print_entry(out, entry)?;
    }
    Ok(())
}
