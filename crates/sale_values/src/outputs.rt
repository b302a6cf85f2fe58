//! The outputs of a Display and their texts: small types over vectors, which contracts see as lists.
ghost use Rattle.std.specs.Prelude.{◌≡◌};

use crate::Output;
use gw_base::Text;
use std::marker::Model;

/// The texts of one output, in order. A contract sees a list of byte lists.
#[derive(Clone, Drop)]
pub struct Texts {
    inner: Vec<Text>,
}

impl Model for Texts {
    ghost use Rattle.std.specs.Prelude.{List, ℕ};

    ghost Value = { List (List ℕ) };

    ghost view = { λ texts. texts.inner.items };
}

impl Texts {
    /// The texts of this vector.
    pub fn new(inner: Vec<Text>) -> Texts
        ensures { result ≡ inner.items }
    {
        Texts { inner }
    }

    /// The vector.
    pub fn inner(&self) -> &Vec<Text>
        ensures { result.now.items ≡ self.now }
    {
        &self.inner
    }

    /// The texts as a slice.
    pub fn as_slice(&self) -> &[Text]
        ensures { result.now ≡ self.now }
    {
        &self.inner
    }
}

/// The outputs of a Display request, in order. A contract sees a list.
#[derive(Clone, Drop)]
pub struct Outputs {
    inner: Vec<Output>,
}

impl Model for Outputs {
    ghost use Rattle.std.specs.Prelude.{List};
    ghost use Rattle.sale_values.specs.declared.request.Output.{Output};

    ghost Value = { List Output };

    ghost view = { λ outputs. outputs.inner.items };
}

impl Outputs {
    /// The outputs of this vector.
    pub fn new(inner: Vec<Output>) -> Outputs
        ensures { result ≡ inner.items }
    {
        Outputs { inner }
    }

    /// The vector.
    pub fn inner(&self) -> &Vec<Output>
        ensures { result.now.items ≡ self.now }
    {
        &self.inner
    }

    /// The outputs as a slice.
    pub fn as_slice(&self) -> &[Output]
        ensures { result.now ≡ self.now }
    {
        &self.inner
    }
}
