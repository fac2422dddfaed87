//! Names, by which modules are asked.

ghost use Rattle.std.specs.Prelude.{◌≡◌, Some, bytes_eq};
ghost use Rattle.std.proofs.Common.{rules};
ghost use Rattle.std.specs.Hash as fed;
ghost use Rattle.std.specs.Cmp.{partial_equiv_from_equiv};
ghost use Rattle.std.specs.Cmp.Lexicographic.{nat_list_cmp_total, nat_list_eq_equiv, slice_cmp, texts_po, texts_ties};
ghost use Rattle.std.specs.Ordering.{nat_cmp};
ghost use Rattle.std.specs.Cmp.Rules.{hashing};

use std::cmp::Ordering;
use std::hash::{Hash, Hasher};
use std::marker::Model;

/// A name that stands in a record, seen as its UTF-8 bytes.
#[derive(Drop)]
pub(crate) struct Name<'a> {
    text: &'a str,
}

impl<'a> Model for Name<'a> {
    ghost use Rattle.std.specs.Prelude.{ℕ, List};

    ghost Value = { List ℕ };

    ghost view = { λ n. n.text.now };
}

impl<'a> Name<'a> {
    /// The name with these bytes.
    pub(crate) fn new(text: &'a str) -> Name<'a>
        ensures { result ≡ text.now }
    {
        Name { text }
    }

    /// Its text.
    pub(crate) fn text(&self) -> &'a str
        ensures { result.now ≡ self.now }
    {
        self.text
    }
}

impl<'a> PartialEq for Name<'a> {
    ghost eq = { bytes_eq };

    ghost laws = { partial_equiv_from_equiv nat_list_eq_equiv };

    /// Whether the bytes are the same.
    fn eq(&self, other: &Self) -> bool {
        self.text() == other.text()
    }
}

impl<'a> Eq for Name<'a> {
    ghost laws = { nat_list_eq_equiv };
}

impl<'a> PartialOrd for Name<'a> {
    ghost partial_cmp = { λ x y. Some (slice_cmp nat_cmp x y) };

    ghost laws = { texts_po };

    /// Compares the bytes.
    fn partial_cmp(&self, other: &Self) -> Option<Ordering> {
        Some(self.text().cmp(other.text()))
    }
}

impl<'a> Ord for Name<'a> {
    ghost cmp = { slice_cmp nat_cmp };

    ghost total = { nat_list_cmp_total };

    ghost matches_partial_cmp = { Prim.search rules };

    ghost matches_eq = { texts_ties };

    /// Compares the bytes.
    fn cmp(&self, other: &Self) -> Ordering {
        self.text().cmp(other.text())
    }
}

impl<'a> Hash for Name<'a> {
    ghost hash_input = { fed.str };

    ghost respects_eq = { Prim.search (hashing, rules) };

    /// Hashes the bytes, as the name's `&str` is hashed.
    fn hash<H: Hasher>(&self, state: &mut H) {
        self.text().hash(state);
    }
}
