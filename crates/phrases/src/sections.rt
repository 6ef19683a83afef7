// The sections of the texts, and what a text of each is numbered by.
ghost use Rattle.std.specs.Prelude.{◌≡◌};
ghost use Rattle.phrases.specs.Sections.{number_of};

#[derive(Clone, Copy, PartialEq, Eq)]
pub enum Section {
    // Interface kinds.
    Kinds,
    // Messages by type.
    Messages,
    // Standings.
    Standings,
    // Which of its two reasons 9 had.
    Reasons,
    // The cause to reply with.
    Causes,
    // A level by its place, which is 0 for the message.
    Levels,
    // One row, or several.
    Counts,
    // A verdict by its code.
    Verdicts,
    // A page's first lines: 0 the title without the message's type, 1 with it, 2 the heads of the columns.
    Pages,
    // A row's numbers by its parent.
    Rows,
    // A row's end: 0 with no value, 1 before a value.
    Endings,
    // The mark of the row that a refusal names, by its code.
    Marks,
    // What is covered of a value, by how many of its octets stand before.
    Covers,
    // What stands before the numbers of a header: 0 its TEID, 1 the sequence number after that, 2 the sequence number alone.
    Headers,
    // The length that a header gives, 0 if it has more than 16 bits.
    Claims,
    // One octet, or several.
    Sizes,
    // Why a group is set aside whole, by its standing.
    Voids,
}

impl Section {
    pub fn number(self) -> u8
        ensures { result ≡ number_of self }
    {
        self as u8
    }
}
