//! Kinds and shapes of values.

ghost use Rattle.std.specs.Prelude.{◌≡◌};
ghost use Rattle.stack_text.specs.Values.{is_item, item_count, kind_name, same_kind};

/// What an item of a value is.
#[derive(Clone, Copy, Debug, PartialEq, Eq)]
pub enum Kind {
    /// A signed integer of 32 bits.
    Integer,
    /// 0 for false, or 1 for true.
    Boolean,
    /// An ASCII code, 0 to 127.
    Character,
}

/// The kind of a value's items and how many there are.
#[derive(Clone, Copy, Debug, PartialEq, Eq)]
pub struct Shape {
    /// What each item is.
    pub kind: Kind,
    /// The length of an array, or 0 for a simple type, which has one item.
    pub length: u32,
}

impl Kind {
    /// The word of the kind, in sources and in listings.
    pub fn name(self) -> &'static str
        ensures { result.now ≡ kind_name self }
    {
        match self {
            Kind::Integer => "integer",
            Kind::Boolean => "boolean",
            Kind::Character => "character",
        }
    }

    /// Whether it is this kind.
    pub fn is(self, other: Kind) -> bool
        ensures { result ≡ same_kind self other }
    {
        self == other
    }

    /// Whether the kind has this item.
    pub fn has(self, item: i32) -> bool
        ensures { result ≡ is_item self item }
    {
        match self {
            Kind::Integer => true,
            Kind::Boolean => item == 0 || item == 1,
            Kind::Character => 0 <= item && item <= 127,
        }
    }
}

impl Shape {
    /// How many items a value of the shape has.
    pub fn item_count(self) -> usize
        ensures { result ≡ item_count self }
    {
        if self.length == 0 {
            1
        } else {
            self.length as usize
        }
    }
}
