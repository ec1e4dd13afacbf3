// The state of an association within a turn.
ghost use Rattle.std.specs.Prelude.{◌≡◌};
ghost use Rattle.bay_server_turn.specs.AssociationStates as spec;

/// The state of an association within a turn.
#[derive(Clone, Copy)]
pub enum AssociationState {
    /// The association was not closed in this turn, and every reply to it fitted: it is open or
    /// free.
    Steady,
    /// It is open and a reply did not fit its queue, so the turn will close it.
    Full,
    /// It was closed, and its queue will be offered once more.
    Draining,
    /// It was closed, its queue will be offered once more, and a reply did not fit this queue.
    DrainingFull,
    /// It was closed, with an empty queue.
    Closed,
}

impl AssociationState {
    /// Returns whether it is open and a reply did not fit its queue.
    pub fn is_full(self) -> bool
        ensures { result ≡ spec.is_full self }
    {
        match self {
            AssociationState::Full => true,
            AssociationState::Steady
            | AssociationState::Draining
            | AssociationState::DrainingFull
            | AssociationState::Closed => false,
        }
    }

    /// Returns whether it was closed and its queue will be offered once more.
    pub fn is_draining(self) -> bool
        ensures { result ≡ spec.is_draining self }
    {
        match self {
            AssociationState::Draining | AssociationState::DrainingFull => true,
            AssociationState::Steady | AssociationState::Full | AssociationState::Closed => false,
        }
    }

    /// Returns whether the turn already reports its closing.
    pub fn is_close_reported(self) -> bool
        ensures { result ≡ spec.is_close_reported self }
    {
        match self {
            AssociationState::Draining
            | AssociationState::DrainingFull
            | AssociationState::Closed => true,
            AssociationState::Steady | AssociationState::Full => false,
        }
    }

    /// Returns whether its queue accepts replies, given whether the association is open.
    pub fn accepts_replies(self, is_open: bool) -> bool
        ensures { result ≡ spec.accepts_replies self is_open }
    {
        match self {
            AssociationState::Steady => is_open,
            AssociationState::Draining => true,
            AssociationState::Full | AssociationState::DrainingFull | AssociationState::Closed =>
                false,
        }
    }

    /// Returns the state after a reply that did not fit.
    pub fn with_full_queue(self) -> AssociationState
        ensures { result ≡ spec.after_full self }
    {
        match self {
            AssociationState::Steady | AssociationState::Full => AssociationState::Full,
            AssociationState::Draining | AssociationState::DrainingFull =>
                AssociationState::DrainingFull,
            AssociationState::Closed => AssociationState::Closed,
        }
    }
}
