//! Why a request failed: nexo's `ErrorCondition`.
ghost use Rattle.std.specs.Prelude.{◌≡◌, ◌≢◌, MatchOption};
ghost use Rattle.gw_base.specs.declared.condition.Condition.{Condition};
ghost use Rattle.gw_base.specs.Condition.{name_of};

/// The error conditions of nexo Sale to POI that this profile uses.
#[derive(Clone, Copy, PartialEq, Eq, Debug)]
pub enum Condition {
    Aborted,
    Busy,
    Cancel,
    InProgress,
    InsertedCard,
    InvalidCard,
    LoggedOut,
    MessageFormat,
    NotAllowed,
    NotFound,
    Refusal,
    UnavailableDevice,
    UnavailableService,
}

impl Condition {
    /// The conditions, in the order of their names.
    pub const ALL: [Condition; 13] = [
        Condition::Aborted,
        Condition::Busy,
        Condition::Cancel,
        Condition::InProgress,
        Condition::InsertedCard,
        Condition::InvalidCard,
        Condition::LoggedOut,
        Condition::MessageFormat,
        Condition::NotAllowed,
        Condition::NotFound,
        Condition::Refusal,
        Condition::UnavailableDevice,
        Condition::UnavailableService,
    ];

    /// The text of `ErrorCondition` in a message.
    pub fn name(self) -> &'static str
        ensures { result.now ≡ name_of self }
    {
        match self {
            Condition::Aborted => "Aborted",
            Condition::Busy => "Busy",
            Condition::Cancel => "Cancel",
            Condition::InProgress => "InProgress",
            Condition::InsertedCard => "InsertedCard",
            Condition::InvalidCard => "InvalidCard",
            Condition::LoggedOut => "LoggedOut",
            Condition::MessageFormat => "MessageFormat",
            Condition::NotAllowed => "NotAllowed",
            Condition::NotFound => "NotFound",
            Condition::Refusal => "Refusal",
            Condition::UnavailableDevice => "UnavailableDevice",
            Condition::UnavailableService => "UnavailableService",
        }
    }

    /// The condition of this text; `None` where this profile has none.
    pub fn from_name(name: &[u8]) -> Option<Condition>
        ensures { MatchOption result ((c : Condition) → name_of c ≢ name.now) (λ c. name_of c ≡ name.now) }
    {
        for condition in Condition::ALL {
            if condition.name().as_bytes() == name {
                return Some(condition);
            }
        }
        None
    }
}

/// Each condition has a name of its own.
pub fn law_conditions()
    ensures { (a b : Condition) → name_of a ≡ name_of b → a ≡ b }
{}
