//! Where a table stands in a document.

/// The arrays of tables of a document. The elements of each have an array of tables of their own.
#[derive(Clone, Copy, Debug, PartialEq, Eq)]
pub enum Part {
    DataSet,
    KeyGroup,
    Group,
    ReadGroup,
}

/// Where a table stands: the document itself, `publisher`, an element of one of the arrays, or an
/// element of such an element's own array. Elements count from 0.
#[derive(Clone, Copy, Debug, PartialEq, Eq)]
pub enum Place {
    Root,
    Publisher,
    Outer(Part, usize),
    Inner(Part, usize, usize),
}

impl Part {
    ghost use Rattle.std.specs.Prelude.{◌≡◌};
    ghost use Rattle.config_tables.specs.Places.{outer_key, inner_key};

    /// The key of the array in the document.
    pub fn outer_key(self) -> &'static str
        ensures { result.now ≡ outer_key self }
    {
        match self {
            Part::DataSet => "dataset",
            Part::KeyGroup => "keygroup",
            Part::Group => "group",
            Part::ReadGroup => "readgroup",
        }
    }

    /// The key of the array in each of its elements.
    pub fn inner_key(self) -> &'static str
        ensures { result.now ≡ inner_key self }
    {
        match self {
            Part::DataSet => "field",
            Part::KeyGroup => "key",
            Part::Group => "writer",
            Part::ReadGroup => "reader",
        }
    }
}

impl Part {
    ghost use Rattle.std.specs.Prelude.{◌≡◌};
    ghost use Rattle.config_tables.specs.Places.{is_part};

    pub fn is(self, other: Part) -> bool
        ensures { result ≡ is_part self other }
    {
        match self {
            Part::DataSet => matches!(other, Part::DataSet),
            Part::KeyGroup => matches!(other, Part::KeyGroup),
            Part::Group => matches!(other, Part::Group),
            Part::ReadGroup => matches!(other, Part::ReadGroup),
        }
    }
}

impl Place {
    ghost use Rattle.std.specs.Prelude.{◌≡◌};
    ghost use Rattle.config_tables.specs.Places.{is_outer, is_inner, is_inner_of, index_of, is_component, shares_names, shares_ids, shares_outer, counts_with, limit_of};

    /// An element of this array of the document.
    pub fn is_outer(self, part: Part) -> bool
        ensures { result ≡ is_outer part self }
    {
        match self {
            Place::Outer(own, _) => part.is(own),
            _ => false,
        }
    }

    /// An element of an element of this array.
    pub fn is_inner(self, part: Part) -> bool
        ensures { result ≡ is_inner part self }
    {
        match self {
            Place::Inner(own, _, _) => part.is(own),
            _ => false,
        }
    }

    /// An element of the element of this array that has this index.
    pub fn is_inner_of(self, part: Part, index: usize) -> bool
        ensures { result ≡ is_inner_of part index self }
    {
        match self {
            Place::Inner(own, outer, _) => part.is(own) && index == outer,
            _ => false,
        }
    }

    /// The index of the element of an array of the document, 0 for other tables.
    pub fn index(self) -> usize
        ensures { result ≡ index_of self }
    {
        match self {
            Place::Outer(_, index) => index,
            _ => 0,
        }
    }

    /// A group, a writer, a read group or a reader.
    pub fn is_component(self) -> bool
        ensures { result ≡ is_component self }
    {
        self.is_outer(Part::Group)
            || self.is_inner(Part::Group)
            || self.is_outer(Part::ReadGroup)
            || self.is_inner(Part::ReadGroup)
    }

    /// Whether no two of these may have one name.
    pub fn shares_names(self, other: Place) -> bool
        ensures { result ≡ shares_names self other }
    {
        match self {
            Place::Outer(Part::DataSet, _) => other.is_outer(Part::DataSet),
            Place::Outer(Part::KeyGroup, _) => other.is_outer(Part::KeyGroup),
            Place::Inner(Part::DataSet, index, _) => other.is_inner_of(Part::DataSet, index),
            _ => self.is_component() && other.is_component(),
        }
    }

    /// Whether no two of these may have one id.
    pub fn shares_ids(self, other: Place) -> bool
        ensures { result ≡ shares_ids self other }
    {
        match self {
            Place::Outer(Part::Group, _) => other.is_outer(Part::Group),
            Place::Inner(Part::Group, _, _) => other.is_inner(Part::Group),
            Place::Inner(Part::ReadGroup, index, _) => other.is_inner_of(Part::ReadGroup, index),
            _ => false,
        }
    }

    /// Whether they are elements of the same element's array.
    pub fn shares_outer(self, other: Place) -> bool
        ensures { result ≡ shares_outer self other }
    {
        match self {
            Place::Inner(part, index, _) => other.is_inner_of(part, index),
            _ => false,
        }
    }

    /// Whether they are counted together: writers and readers are counted in all, fields and keys in
    /// their own array.
    pub fn counts_with(self, other: Place) -> bool
        ensures { result ≡ counts_with self other }
    {
        match self {
            Place::Root | Place::Publisher => false,
            Place::Outer(part, _) => other.is_outer(part),
            Place::Inner(Part::DataSet, index, _) => other.is_inner_of(Part::DataSet, index),
            Place::Inner(Part::KeyGroup, index, _) => other.is_inner_of(Part::KeyGroup, index),
            Place::Inner(Part::Group, _, _) => other.is_inner(Part::Group),
            Place::Inner(Part::ReadGroup, _, _) => other.is_inner(Part::ReadGroup),
        }
    }

    /// How many that are counted together there may be.
    pub fn limit(self) -> usize
        ensures { result ≡ limit_of self }
    {
        match self {
            Place::Root | Place::Publisher => 1,
            Place::Outer(Part::DataSet, _) => 8,
            Place::Inner(Part::DataSet, _, _) => 64,
            Place::Outer(Part::KeyGroup, _) => 4,
            Place::Inner(Part::KeyGroup, _, _) => 16,
            Place::Outer(Part::Group, _) => 4,
            Place::Inner(Part::Group, _, _) => 16,
            Place::Outer(Part::ReadGroup, _) => 4,
            Place::Inner(Part::ReadGroup, _, _) => 16,
        }
    }
}
