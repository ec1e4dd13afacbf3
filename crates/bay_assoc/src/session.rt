// Reads session protocol data units (X.225 8): an identifier, a length, and parameters, which are
// encoded the same way.
ghost use Rattle.std.specs.Prelude.{◌≡◌, ◌+◌, ◌≤◌, length, option_map, IfSome};
ghost use Rattle.bay_assoc.specs.Session.{one_unit, parameters, by_identifier, spdu};
ghost use Rattle.bay_assoc.specs.Session as spec;
ghost use Rattle.bay_assoc.specs.SessionReading.{NextUnit};
ghost use Rattle.bay_assoc.specs.SessionReading as spec_session_reading;
ghost use Rattle.bay_assoc.specs.SessionViews.{unit_of};
ghost use Rattle.bay_assoc.specs.Views.{user_data_view, spdu_view};

use std::marker::Model;

// The code of a parameter that is user data.
const USER_DATA: u8 = 0xC1;

/// An identifier and the octets that the length after it counts: an SPDU, a parameter or a group of
/// parameters.
#[derive(Clone, Copy)]
pub struct Unit<'a> {
    pub identifier: u8,
    pub content: &'a [u8],
}

/// The user data among the parameters: none, one, or more than one.
#[derive(Clone, Copy)]
pub enum UserData<'a> {
    Missing,
    Once(&'a [u8]),
    Several,
}

/// An SPDU.
#[derive(Clone, Copy)]
pub enum Spdu<'a> {
    /// CONNECT (CN), with its user data.
    Connect(&'a [u8]),
    /// ACCEPT (AC).
    Accept,
    /// FINISH (FN), with its user data if present.
    Finish(Option<&'a [u8]>),
    /// DISCONNECT (DN).
    Disconnect,
    /// ABORT (AB).
    Abort,
    /// DATA TRANSFER (DT) after a GIVE TOKENS, with its user data.
    Transfer(&'a [u8]),
}

// Reads a length of two octets, and returns the octets after it.
fn long_size(octets: &[u8]) -> Option<(usize, &[u8])>
    ensures exact { option_map (λ x. (x.0, x.1.now)) result ≡ spec.long_size octets.now }
    ensures shorter { IfSome result (λ x. length x.1.now ≤ length octets.now) }
{
    match octets {
        [high, low, rest @ ..] => Some((*high as usize * 256 + *low as usize, rest)),
        _ => None,
    }
}

// Reads a length, and returns the octets after it.
#[tactic(auto, unfolding(crate::specs::Session::size_at))]
fn size_at(octets: &[u8]) -> Option<(usize, &[u8])>
    ensures exact { option_map (λ x. (x.0, x.1.now)) result ≡ spec.size_at octets.now }
    ensures shorter { IfSome result (λ x. length x.1.now + 1 ≤ length octets.now) }
{
    match octets {
        [] => None,
        [first, rest @ ..] => {
            if *first == 255 {
                long_size(rest)
            } else {
                Some((*first as usize, rest))
            }
        }
    }
}

// Reads a length, and returns the octets that it counts, and those after them.
#[tactic(auto, unfolding(crate::specs::Session::content_at))]
fn content_at(octets: &[u8]) -> Option<(&[u8], &[u8])>
    ensures exact { option_map (λ x. (x.0.now, x.1.now)) result ≡ spec.content_at octets.now }
    ensures shorter { IfSome result (λ x. length x.1.now + 1 ≤ length octets.now) }
{
    let (count, rest) = size_at(octets)?;
    if rest.len() < count {
        return None;
    }
    Some(rest.split_at(count))
}

// Reads a unit, and returns the octets after it.
#[tactic(auto, unfolding(crate::specs::Session::unit_at))]
fn unit_at(octets: &[u8]) -> Option<(Unit<'_>, &[u8])>
    ensures exact { option_map (λ x. (unit_of x.0, x.1.now)) result ≡ spec.unit_at octets.now }
    ensures shorter { IfSome result (λ x. length x.1.now + 2 ≤ length octets.now) }
{
    match octets {
        [] => None,
        [identifier, rest @ ..] => {
            let (content, rest) = content_at(rest)?;
            let unit = Unit {
                identifier: *identifier,
                content,
            };
            Some((unit, rest))
        }
    }
}

/// An iterator over consecutive units in octets, which contracts view as the octets not yet read.
#[derive(Drop)]
pub struct Units<'a> {
    rest: &'a [u8],
}

impl<'a> Model for Units<'a> {
    ghost use Rattle.std.specs.Prelude.{ℕ, List};

    ghost Value = { List ℕ };

    ghost view = { λ u. u.rest.now };
}

/// The result of reading the next unit.
pub enum UnitRead<'a> {
    /// No octet is left.
    End,
    /// A unit.
    Unit(Unit<'a>),
    /// Octets that are no unit.
    Bad,
}

impl<'a> Units<'a> {
    // Starts at the first of these octets.
    fn new(octets: &'a [u8]) -> Units<'a>
        ensures { result ≡ octets.now }
    {
        Units { rest: octets }
    }

    // Reads the next unit. Does not advance if no unit comes next.
    fn next_unit(&mut self) -> UnitRead<'a>
        ensures { NextUnit self.old result self.new }
    {
        if self.rest.is_empty() {
            return UnitRead::End;
        }
        match unit_at(self.rest) {
            Some((unit, rest)) => {
                self.rest = rest;
                UnitRead::Unit(unit)
            }
            None => UnitRead::Bad,
        }
    }
}

// Returns whether a parameter is user data.
fn is_user_data(unit: &Unit<'_>) -> bool
    ensures { result ≡ spec.is_user_data (unit_of unit.now) }
{
    unit.identifier == USER_DATA
}

// Returns the user data found so far, after one more unit.
fn user_data_with_unit<'a>(found: UserData<'a>, unit: Unit<'a>) -> UserData<'a>
    ensures { user_data_view result
        ≡ spec_session_reading.user_data_with_unit (user_data_view found.entry)
        (unit_of unit.entry) }
{
    if !is_user_data(&unit) {
        return found;
    }
    match found {
        UserData::Missing => UserData::Once(unit.content),
        UserData::Once(_) | UserData::Several => UserData::Several,
    }
}

// Returns the user data among the parameters in octets; `None` if the octets are no parameters.
fn parse_user_parameters(octets: &[u8]) -> Option<UserData<'_>>
    ensures { option_map user_data_view result ≡ parameters.reads octets.now }
{
    let mut found = UserData::Missing;
    let mut units = Units::new(octets);
    loop {
        match units.next_unit() {
            UnitRead::Unit(unit) => found = user_data_with_unit(found, unit),
            UnitRead::End => return Some(found),
            UnitRead::Bad => return None,
        }
    }
}

// Returns the CONNECT with these user data, which must occur once.
fn connect_of(users: UserData<'_>) -> Option<Spdu<'_>>
    ensures { option_map spdu_view result ≡ spec.connect_of (user_data_view users.entry) }
{
    match users {
        UserData::Once(user) => Some(Spdu::Connect(user)),
        UserData::Missing | UserData::Several => None,
    }
}

// Returns the FINISH with these user data, which must occur at most once.
fn finish_of(users: UserData<'_>) -> Option<Spdu<'_>>
    ensures { option_map spdu_view result ≡ spec.finish_of (user_data_view users.entry) }
{
    match users {
        UserData::Missing => Some(Spdu::Finish(None)),
        UserData::Once(user) => Some(Spdu::Finish(Some(user))),
        UserData::Several => None,
    }
}

// Returns the SPDU of a unit; `None` if its identifier or its parameters are not known here.
#[tactic(auto, unfolding(crate::specs::Session::by_identifier))]
fn spdu_from_unit(unit: Unit<'_>) -> Option<Spdu<'_>>
    ensures { option_map spdu_view result ≡ by_identifier.reads (unit_of unit.entry) }
{
    let users = parse_user_parameters(unit.content)?;
    match unit.identifier {
        0x0D => connect_of(users),
        0x09 => finish_of(users),
        0x0E => Some(Spdu::Accept),
        0x0A => Some(Spdu::Disconnect),
        0x19 => Some(Spdu::Abort),
        _ => None,
    }
}

// Reads octets that are exactly one unit.
fn parse_unit(octets: &[u8]) -> Option<Unit<'_>>
    ensures { option_map unit_of result ≡ one_unit.reads octets.now }
{
    match unit_at(octets) {
        Some((unit, [])) => Some(unit),
        _ => None,
    }
}

/// Reads a TSDU as an SPDU; `None` if it is none that is known here.
#[tactic(auto, unfolding(crate::specs::Session::spdu))]
pub(crate) fn parse_spdu(tsdu: &[u8]) -> Option<Spdu<'_>>
    ensures { option_map spdu_view result ≡ spdu.reads tsdu.now }
{
    match tsdu {
        [1, 0, 1, 0, user @ ..] => Some(Spdu::Transfer(user)),
        _ => {
            let unit = parse_unit(tsdu)?;
            spdu_from_unit(unit)
        }
    }
}
