//! Identifiers of nexo messages: short texts of printable ASCII.
ghost use Rattle.std.specs.Prelude.{◌≡◌, Some, nat_eq, refl};
ghost use Rattle.std.specs.Option.{SomeIff};
ghost use Rattle.std.specs.Ordering.{nat_cmp};
ghost use Rattle.std.specs.Cmp.{on_equiv, on_total, on_po, on_per, partial_equiv_from_equiv};
ghost use Rattle.std.specs.Cmp.Lexicographic.{pointwise, slice_cmp, nat_list_eq_equiv, nat_list_cmp_total, texts_po, texts_ties};
ghost use Rattle.gw_base.specs.Ident.{IsIdent};

use std::cmp::Ordering;
use std::fmt;
use std::marker::Model;

/// A text of 1 to `N` printable ASCII bytes (`20` to `7E`), which lie in the value itself, so that keys are copied without
/// memory.
///
/// A contract sees the list of its bytes.
#[derive(Clone, Copy)]
pub struct Ident<const N: usize> {
    cells: [u8; N],
    len: usize,
}

impl<const N: usize> Model for Ident<N> {
    ghost use Rattle.std.specs.Prelude.{◌≡◌, ◌-◌, List, ℕ, length, take, drop, replicate};
    ghost use Rattle.gw_base.specs.Ident.{IsIdent, zero_filled, zero_filled-take};

    ghost Value = { List ℕ };

    ghost view = { λ i. take i.len i.cells };

    ghost invariant = { λ i. (length (take i.len i.cells) ≡ i.len)
        × (drop i.len i.cells ≡ replicate (N - i.len) 0)
        × IsIdent N (take i.len i.cells) };

    ghost inverse = { λ bytes. record { cells = zero_filled N bytes; len = length bytes } };

    ghost inverse_ok = { λ i h k. record {
      cells = zero_filled-take N i.len i.cells h.0 h.1 k;
      len = h.0 k;
    } };
}

impl<const N: usize> Ident<N> {
    /// The identifier of these bytes; `None` where they are none, too many, or not all printable ASCII.
    pub fn of(bytes: &[u8]) -> Option<Ident<N>>
        ensures { SomeIff result (IsIdent N bytes.now) bytes.now }
    {
        let len = bytes.len();
        if len == 0 || len > N || !bytes.iter().all(|byte| (0x20..=0x7E).contains(byte)) {
            return None;
        }
        let mut cells = [0; N];
        cells[..len].copy_from_slice(bytes);
        Some(Ident { cells, len })
    }

    /// The identifier of bytes that are known to be one, such as a constant's.
    pub fn known(bytes: &[u8]) -> Ident<N>
        requires { IsIdent N bytes.now }
        ensures { result ≡ bytes.now }
    {
        match Ident::of(bytes) {
            Some(ident) => ident,
            None => unreachable!(),
        }
    }

    /// The bytes.
    pub fn as_bytes(&self) -> &[u8]
        ensures value { result.now ≡ self.now }
        ensures ident { IsIdent N self.now }
    {
        &self.cells[..self.len]
    }
}

impl<const N: usize> PartialEq for Ident<N> {
    ghost eq = { λ i j. pointwise nat_eq i j };

    ghost laws = { on_per (λ i. i) (partial_equiv_from_equiv nat_list_eq_equiv) };

    fn eq(&self, other: &Self) -> bool {
        self.as_bytes() == other.as_bytes()
    }
}

impl<const N: usize> Eq for Ident<N> {
    ghost laws = { on_equiv (λ i. i) nat_list_eq_equiv };
}

impl<const N: usize> PartialOrd for Ident<N> {
    ghost partial_cmp = { λ i j. Some (slice_cmp nat_cmp i j) };

    ghost laws = { on_po (λ i. i) texts_po };

    fn partial_cmp(&self, other: &Self) -> Option<Ordering> {
        Some(self.cmp(other))
    }
}

impl<const N: usize> Ord for Ident<N> {
    ghost cmp = { λ i j. slice_cmp nat_cmp i j };

    ghost total = { on_total (λ i. i) nat_list_cmp_total };

    ghost matches_partial_cmp = { λ i j. refl };

    ghost matches_eq = { λ i j. texts_ties i j };

    fn cmp(&self, other: &Self) -> Ordering {
        self.as_bytes().cmp(other.as_bytes())
    }
}

impl<const N: usize> fmt::Display for Ident<N> {
    fn fmt<W: fmt::Write>(&self, f: &mut fmt::Formatter<W>) -> fmt::Result {
        for byte in self.as_bytes() {
            f.write_char(char::from(*byte))?;
        }
        Ok(())
    }
}

impl<const N: usize> fmt::Debug for Ident<N> {
    fn fmt<W: fmt::Write>(&self, f: &mut fmt::Formatter<W>) -> fmt::Result {
        fmt::Display::fmt(self, f)
    }
}
