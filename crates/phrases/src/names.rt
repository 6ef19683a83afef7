// Elements' names by type number, in a table of names that is lent.
ghost use Rattle.std.specs.Prelude.{◌≡◌};
ghost use Rattle.phrases.specs.Names.{entry_of, element_name};

// The entry of a type number: as much of it as the table has.
fn entry<'a>(names: &'a [u8], typ: u16) -> &'a [u8]
    ensures { result.now ≡ entry_of names.now typ }
{
    let start = names.len().min(32 * usize::from(typ));
    let end = names.len().min(start + 32);
    &names[start..end]
}

// An element's name: its entry without the blanks at its end.
pub fn element<'a>(names: &'a [u8], typ: u16) -> &'a [u8]
    ensures { result.now ≡ element_name names.now typ }
{
    let mut name = entry(names, typ);
    while let [rest @ .., b' '] = name {
        name = rest;
    }
    name
}
