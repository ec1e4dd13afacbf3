// Tags (X.690 8.1.2).
ghost use Rattle.std.specs.Prelude.{◌≡◌, ◌+◌, ◌*◌, ◌<◌, true, false};
ghost use Rattle.bay_ber.specs.Spelling.{octet_of};
ghost use Rattle.bay_ber.specs.Tags.{same_tag};

/// The class of a tag (X.690 8.1.2.2).
#[derive(Clone, Copy, Debug, PartialEq, Eq)]
pub enum Class {
    Universal,
    Application,
    ContextSpecific,
    Private,
}

/// A tag: it precedes each value and determines its type (X.690 8.1.2).
#[derive(Clone, Copy, Debug, PartialEq, Eq)]
pub struct Tag {
    /// The class.
    pub class: Class,
    /// Whether the value is constructed: its content consists of values.
    pub constructed: bool,
    /// The number, 0 to 127. Only numbers below 31 are written.
    pub number: u8,
}

impl Tag {
    /// Returns a universal tag for a primitive value.
    pub const fn universal(number: u8) -> Tag
        ensures { result ≡ record {
          class = Class.Universal;
          constructed = false;
          number = number;
        } }
    {
        Tag {
            class: Class::Universal,
            constructed: false,
            number,
        }
    }

    /// Returns a universal tag for a constructed value.
    pub const fn universal_constructed(number: u8) -> Tag
        ensures { result ≡ record { class = Class.Universal; constructed = true; number = number } }
    {
        Tag {
            class: Class::Universal,
            constructed: true,
            number,
        }
    }

    /// Returns an application tag for a constructed value.
    pub const fn application_constructed(number: u8) -> Tag
        ensures { result ≡ record {
          class = Class.Application;
          constructed = true;
          number = number;
        } }
    {
        Tag {
            class: Class::Application,
            constructed: true,
            number,
        }
    }

    /// Returns the tag of a sequence (X.690 8.9).
    pub const fn sequence() -> Tag
        ensures { result ≡ record { class = Class.Universal; constructed = true; number = 16 } }
    {
        Tag {
            class: Class::Universal,
            constructed: true,
            number: 16,
        }
    }

    /// Returns a context-specific tag for a primitive value.
    pub const fn context(number: u8) -> Tag
        ensures { result ≡ record
            { class = Class.ContextSpecific; constructed = false; number = number } }
    {
        Tag {
            class: Class::ContextSpecific,
            constructed: false,
            number,
        }
    }

    /// Returns a context-specific tag for a constructed value.
    pub const fn context_constructed(number: u8) -> Tag
        ensures { result ≡ record
            { class = Class.ContextSpecific; constructed = true; number = number } }
    {
        Tag {
            class: Class::ContextSpecific,
            constructed: true,
            number,
        }
    }

    /// Returns whether two tags are the same.
    pub fn is(self, other: Tag) -> bool
        ensures { result ≡ same_tag self other }
    {
        self == other
    }

    /// Returns the single octet of a tag with a number below 31.
    pub(crate) fn octet(self) -> u8
        requires { self.number < 31 }
        ensures { result ≡ octet_of self }
    {
        let class = match self.class {
            Class::Universal => 0x00,
            Class::Application => 0x40,
            Class::ContextSpecific => 0x80,
            Class::Private => 0xC0,
        };
        let form = if self.constructed { 0x20 } else { 0x00 };
        class + form + self.number
    }
}
