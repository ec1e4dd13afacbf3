// A request for a presentation connection (ISO 8823-1 8.2, CP).
ghost use Rattle.std.specs.Prelude.{◌≤◌, length};
ghost use Rattle.std.specs.Option.{ForSome};

use crate::presentation::{Context, ContextValue};

/// A request for a presentation connection.
#[derive(Drop)]
pub struct Connect<'a> {
    /// The called selector, if it is present, at most 16 octets.
    pub called: Option<&'a [u8]>,
    /// The offered contexts, at most 16.
    pub contexts: Vec<Context>,
    /// The user data.
    pub user: ContextValue<'a>,
    ghost few: { length contexts.items ≤ 16 },
    ghost short: { ForSome called (λ octets. length octets.now ≤ 16) },
}
