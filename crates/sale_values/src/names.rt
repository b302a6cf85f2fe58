//! The closed lists of names that messages choose from.
ghost use Rattle.std.specs.Prelude.{◌≡◌, ◌≢◌, MatchOption};
ghost use Rattle.sale_values.specs.declared.names.Class.{Class};
ghost use Rattle.sale_values.specs.declared.names.Kind.{Kind};
ghost use Rattle.sale_values.specs.declared.names.Period.{Period};
ghost use Rattle.sale_values.specs.Names.{class_name, kind_name, period_name};

/// nexo's `MessageClass`.
#[derive(Clone, Copy, PartialEq, Eq, Debug)]
pub enum Class {
    Service,
    Device,
    Event,
}

/// nexo's `MessageType`.
#[derive(Clone, Copy, PartialEq, Eq, Debug)]
pub enum Kind {
    Request,
    Response,
    Notification,
}

/// nexo's `ReconciliationType`: whose totals are meant, and by whom the period is closed.
#[derive(Clone, Copy, PartialEq, Eq, Debug)]
pub enum Period {
    SaleReconciliation,
    AcquirerSynchronisation,
    AcquirerReconciliation,
    PreviousReconciliation,
}

impl Class {
    /// The classes, in the order of their declaration.
    pub const ALL: [Class; 3] = [Class::Service, Class::Device, Class::Event];

    /// The text of a header's `MessageClass`.
    pub fn name(self) -> &'static str
        ensures { result.now ≡ class_name self }
    {
        match self {
            Class::Service => "Service",
            Class::Device => "Device",
            Class::Event => "Event",
        }
    }

    /// The class of this name; `None` where there is none.
    pub fn from_name(name: &[u8]) -> Option<Class>
        ensures { MatchOption result ((c : Class) → class_name c ≢ name.now) (λ c. class_name c ≡ name.now) }
    {
        for class in Class::ALL {
            if class.name().as_bytes() == name {
                return Some(class);
            }
        }
        None
    }
}

impl Kind {
    /// The message types, in the order of their declaration.
    pub const ALL: [Kind; 3] = [Kind::Request, Kind::Response, Kind::Notification];

    /// The text of a header's `MessageType`.
    pub fn name(self) -> &'static str
        ensures { result.now ≡ kind_name self }
    {
        match self {
            Kind::Request => "Request",
            Kind::Response => "Response",
            Kind::Notification => "Notification",
        }
    }

    /// The message type of this name; `None` where there is none.
    pub fn from_name(name: &[u8]) -> Option<Kind>
        ensures { MatchOption result ((k : Kind) → kind_name k ≢ name.now) (λ k. kind_name k ≡ name.now) }
    {
        for message_type in Kind::ALL {
            if message_type.name().as_bytes() == name {
                return Some(message_type);
            }
        }
        None
    }
}

impl Period {
    /// The types of reconciliation, in the order of their declaration.
    pub const ALL: [Period; 4] = [
        Period::SaleReconciliation,
        Period::AcquirerSynchronisation,
        Period::AcquirerReconciliation,
        Period::PreviousReconciliation,
    ];

    /// The text of a message's `ReconciliationType`.
    pub fn name(self) -> &'static str
        ensures { result.now ≡ period_name self }
    {
        match self {
            Period::SaleReconciliation => "SaleReconciliation",
            Period::AcquirerSynchronisation => "AcquirerSynchronisation",
            Period::AcquirerReconciliation => "AcquirerReconciliation",
            Period::PreviousReconciliation => "PreviousReconciliation",
        }
    }

    /// The type of this name; `None` where there is none.
    pub fn from_name(name: &[u8]) -> Option<Period>
        ensures { MatchOption result ((p : Period) → period_name p ≢ name.now) (λ p. period_name p ≡ name.now) }
    {
        for period in Period::ALL {
            if period.name().as_bytes() == name {
                return Some(period);
            }
        }
        None
    }
}

/// No two classes, message types or types of reconciliation have one name.
pub fn law_names()
    ensures classes { (a b : Class) → class_name a ≡ class_name b → a ≡ b }
    ensures kinds { (a b : Kind) → kind_name a ≡ kind_name b → a ≡ b }
    ensures periods { (a b : Period) → period_name a ≡ period_name b → a ≡ b }
{}
