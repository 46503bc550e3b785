ghost use Rattle.std.specs.Prelude.{◌≡◌, ℕ, List, ◌+◌, ◌-◌, ◌++◌, ◌≤◌, ◌<◌, length, take, replicate, IsSome, IfSome, ◌↔◌};

use crate::bounds::{LONGEST_ACCESS, LONGEST_WORD};
use std::marker::Model;

/// The length of an access in bytes: 1 to 64.
#[derive(Clone, Copy, Debug, PartialEq, Eq)]
pub struct AccessLen {
    len: u8,
}

impl Model for AccessLen {
    ghost Value = { ℕ };

    ghost view = { λ a. a.len };

    ghost inverse = { λ n. record { len = n } };

    ghost invariant = { λ a. (1 ≤ a.len) × (a.len ≤ 64) };
}

impl AccessLen {
    /// The length, or none if it is not 1 to 64.
    pub fn new(len: u64) -> Option<AccessLen>
        ensures which { IsSome result ↔ (1 ≤ len) × (len ≤ 64) }
        ensures value { IfSome result (λ a. a ≡ len) }
    {
        if len < 1 || len > LONGEST_ACCESS as u64 {
            return None;
        }
        Some(AccessLen { len: len as u8 })
    }

    /// The number of bytes.
    pub fn get(self) -> usize
        ensures value { result ≡ self }
        ensures range { (1 ≤ result) × (result ≤ 64) }
    {
        self.len as usize
    }
}

/// The bytes of an access: 1 to `N` of them, where `N` is at most 64.
#[derive(Clone, Copy, Debug)]
pub struct AccessBytes<const N: usize> {
    // Zeros follow the length, so equal bytes mean equal fields.
    bytes: [u8; N],
    len: AccessLen,
}

/// The bytes of a load, a store or an exchange.
pub type Chunk = AccessBytes<LONGEST_ACCESS>;

/// An operand of a compare and exchange: 1 to 16 bytes.
pub type Word = AccessBytes<LONGEST_WORD>;

impl<const N: usize> Model for AccessBytes<N> {
    ghost use Rattle.std.specs.Prelude.{◌≡◌, ◌≤◌, ◌-◌, ◌++◌, ℕ, List, length, take, replicate};
    ghost use Rattle.std.proofs.Common.{arith, ap, sym, ◌∙◌, length-take-le};

    ghost Value = { List ℕ };

    ghost view = { λ c. take c.len c.bytes };

    ghost inverse = { λ xs. record { bytes = xs ++ replicate (N - length xs) 0; len = length xs } };

    ghost invariant = { λ c. (1 ≤ c.len) × (c.len ≤ 64) × (c.len ≤ N) × (length c.bytes ≡ N)
        × (c.bytes ≡ take c.len c.bytes ++ replicate (N - c.len) 0) };

    ghost inverse_ok = { λ c h i. record {
      bytes = (ap (λ k. take c.len c.bytes ++ replicate (N - k) 0)
          (length-take-le c.len c.bytes (omega (arith, h.2, h.3))) ∙ sym h.4) i;
      len = length-take-le c.len c.bytes (omega (arith, h.2, h.3)) i;
    } };
}

impl<const N: usize> AccessBytes<N> {
    /// Copies the bytes; none if there are not 1 to `N` of them. Takes no memory.
    #[inline(always)]
    pub fn new(bytes: &[u8]) -> Option<AccessBytes<N>>
        requires { N ≤ 64 }
        ensures which { IsSome result ↔ (1 ≤ length bytes.now) × (length bytes.now ≤ N) }
        ensures value { IfSome result (λ c. c ≡ bytes.now) }
    {
        if bytes.len() > N {
            return None;
        }
        let len = AccessLen::new(bytes.len() as u64)?;
        let mut all = [0; N];
        all[..bytes.len()].copy_from_slice(bytes);
        Some(AccessBytes { bytes: all, len })
    }

    #[inline(always)]
    pub fn as_slice(&self) -> &[u8]
        ensures value { result.now ≡ self.now }
        ensures range { (1 ≤ length result.now) × (length result.now ≤ N) }
    {
        &self.bytes[..self.len.get()]
    }
}

impl Chunk {
    /// The first `len` bytes of an array whose other bytes are zeros. Takes no memory.
    #[inline(always)]
    pub fn from_array(bytes: [u8; LONGEST_ACCESS], len: AccessLen) -> Chunk
        requires zeros { bytes ≡ take len bytes ++ replicate (64 - len) 0 }
        ensures { result ≡ take len bytes }
    {
        prove!(len.get() <= LONGEST_ACCESS);
        AccessBytes { bytes, len }
    }
}

impl<const N: usize> PartialEq for AccessBytes<N> {
    ghost use Rattle.std.specs.Prelude.{nat_eq};
    ghost use Rattle.std.specs.Cmp.{partial_equiv_from_equiv};
    ghost use Rattle.std.specs.Cmp.Lexicographic.{pointwise, nat_list_eq_equiv};

    ghost eq = { pointwise nat_eq };

    ghost laws = { partial_equiv_from_equiv nat_list_eq_equiv };

    fn eq(&self, other: &AccessBytes<N>) -> bool {
        self.as_slice() == other.as_slice()
    }
}

impl<const N: usize> Eq for AccessBytes<N> {
    ghost use Rattle.std.specs.Cmp.Lexicographic.{nat_list_eq_equiv};

    ghost laws = { nat_list_eq_equiv };
}
