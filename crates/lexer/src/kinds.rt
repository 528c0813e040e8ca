// The kinds of bytes, and the kind of each byte of a book.
ghost use Rattle.std.specs.Prelude.{◌≡◌};
ghost use Rattle.book.specs.Kind.{kind_of, item_kind};
ghost use Rattle.lexer.specs.Kinds.{kind_number, suffix_kind, operator_kind, leaf_kind};

// The kinds, by the names of specs/Kind.antt of `book`, in its order.
#[derive(Clone, Copy, Debug, PartialEq, Eq)]
pub enum Kind {
    Stray,
    Letter,
    Name,
    Dot,
    At,
    Open,
    Bang,
    Star,
    Plus,
    Question,
    Ampersand,
    Minus,
    Bar,
    Close,
    Space,
    LineEnd,
    Colon,
    Equals,
    Greater,
    Slash,
    Underscore,
    Less,
    Caret,
}

// From this byte on all are stray.
pub const ASCII_END: usize = 128;

// The kinds of the bytes below it.
pub type KindTable = [Kind; ASCII_END];

// "The kind of every byte .. is one constant table"; "All bytes from 0x80 up are stray, so the table keeps 128 entries". A mark at each sixteenth.
pub static KINDS: KindTable = [
    // 0x00
    Kind::Stray,
    Kind::Stray,
    Kind::Stray,
    Kind::Stray,
    Kind::Stray,
    Kind::Stray,
    Kind::Stray,
    Kind::Stray,
    Kind::Stray,
    Kind::Stray,
    Kind::LineEnd,
    Kind::Stray,
    Kind::Stray,
    Kind::Stray,
    Kind::Stray,
    Kind::Stray,
    // 0x10
    Kind::Stray,
    Kind::Stray,
    Kind::Stray,
    Kind::Stray,
    Kind::Stray,
    Kind::Stray,
    Kind::Stray,
    Kind::Stray,
    Kind::Stray,
    Kind::Stray,
    Kind::Stray,
    Kind::Stray,
    Kind::Stray,
    Kind::Stray,
    Kind::Stray,
    Kind::Stray,
    // 0x20
    Kind::Space,
    Kind::Bang,
    Kind::Stray,
    Kind::Stray,
    Kind::Stray,
    Kind::Stray,
    Kind::Ampersand,
    Kind::Stray,
    Kind::Open,
    Kind::Close,
    Kind::Star,
    Kind::Plus,
    Kind::Stray,
    Kind::Minus,
    Kind::Dot,
    Kind::Slash,
    // 0x30
    Kind::Stray,
    Kind::Stray,
    Kind::Stray,
    Kind::Stray,
    Kind::Stray,
    Kind::Stray,
    Kind::Stray,
    Kind::Stray,
    Kind::Stray,
    Kind::Stray,
    Kind::Colon,
    Kind::Stray,
    Kind::Less,
    Kind::Equals,
    Kind::Greater,
    Kind::Question,
    // 0x40
    Kind::At,
    Kind::Name,
    Kind::Name,
    Kind::Name,
    Kind::Name,
    Kind::Name,
    Kind::Name,
    Kind::Name,
    Kind::Name,
    Kind::Name,
    Kind::Name,
    Kind::Name,
    Kind::Name,
    Kind::Name,
    Kind::Name,
    Kind::Name,
    // 0x50
    Kind::Name,
    Kind::Name,
    Kind::Name,
    Kind::Name,
    Kind::Name,
    Kind::Name,
    Kind::Name,
    Kind::Name,
    Kind::Name,
    Kind::Name,
    Kind::Name,
    Kind::Stray,
    Kind::Stray,
    Kind::Stray,
    Kind::Caret,
    Kind::Underscore,
    // 0x60
    Kind::Stray,
    Kind::Letter,
    Kind::Letter,
    Kind::Letter,
    Kind::Letter,
    Kind::Letter,
    Kind::Letter,
    Kind::Letter,
    Kind::Letter,
    Kind::Letter,
    Kind::Letter,
    Kind::Letter,
    Kind::Letter,
    Kind::Letter,
    Kind::Letter,
    Kind::Letter,
    // 0x70
    Kind::Letter,
    Kind::Letter,
    Kind::Letter,
    Kind::Letter,
    Kind::Letter,
    Kind::Letter,
    Kind::Letter,
    Kind::Letter,
    Kind::Letter,
    Kind::Letter,
    Kind::Letter,
    Kind::Stray,
    Kind::Bar,
    Kind::Stray,
    Kind::Stray,
    Kind::Stray,
];

impl Kind {
    pub fn of(b: u8) -> Self
        ensures { kind_number result ≡ kind_of b }
    {
        let i = b as usize;
        if i < ASCII_END { KINDS[i] } else { Kind::Stray }
    }

    // A letter, a name, `.`, `@`, `(`, `!`.
    pub fn begins_item(self) -> bool
        ensures { result ≡ item_kind (kind_number self) }
    {
        self.is_leaf() || matches!(self, Kind::Open | Kind::Bang)
    }

    // A letter, a name, `.`, `@`: an item of one byte.
    pub fn is_leaf(self) -> bool
        ensures { result ≡ leaf_kind (kind_number self) }
    {
        matches!(self, Kind::Letter | Kind::Name | Kind::Dot | Kind::At)
    }

    // `*`, `+`, `?`.
    pub fn is_suffix(self) -> bool
        ensures { result ≡ suffix_kind (kind_number self) }
    {
        matches!(self, Kind::Star | Kind::Plus | Kind::Question)
    }

    // `&`, `-`.
    pub fn is_operator(self) -> bool
        ensures { result ≡ operator_kind (kind_number self) }
    {
        matches!(self, Kind::Ampersand | Kind::Minus)
    }
}
