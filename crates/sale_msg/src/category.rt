//! The categories of requests.
ghost use Rattle.std.specs.Prelude.{◌≡◌, ◌≢◌, MatchOption};
ghost use Rattle.sale_msg.specs.declared.category.Category.{Category};
ghost use Rattle.sale_msg.specs.Category.{category_name};

/// The values of nexo's `MessageCategory` that this profile serves.
#[derive(Clone, Copy, PartialEq, Eq)]
pub enum Category {
    Login,
    Logout,
    Payment,
    Reversal,
    Abort,
    TransactionStatus,
    Reconciliation,
    Display,
    Print,
    Diagnosis,
}

impl Category {
    /// The categories, in the order of their declaration.
    pub const ALL: [Category; 10] = [
        Category::Login,
        Category::Logout,
        Category::Payment,
        Category::Reversal,
        Category::Abort,
        Category::TransactionStatus,
        Category::Reconciliation,
        Category::Display,
        Category::Print,
        Category::Diagnosis,
    ];

    /// The text of a header's `MessageCategory`.
    pub fn name(self) -> &'static str
        ensures { result.now ≡ category_name self }
    {
        match self {
            Category::Login => "Login",
            Category::Logout => "Logout",
            Category::Payment => "Payment",
            Category::Reversal => "Reversal",
            Category::Abort => "Abort",
            Category::TransactionStatus => "TransactionStatus",
            Category::Reconciliation => "Reconciliation",
            Category::Display => "Display",
            Category::Print => "Print",
            Category::Diagnosis => "Diagnosis",
        }
    }

    /// The category of this name; `None` where this profile serves none.
    pub fn from_name(name: &[u8]) -> Option<Category>
        ensures { MatchOption result ((c : Category) → category_name c ≢ name.now) (λ c. category_name c ≡ name.now) }
    {
        for category in Category::ALL {
            if category.name().as_bytes() == name {
                return Some(category);
            }
        }
        None
    }
}
