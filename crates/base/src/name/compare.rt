//! Comparing names: ASCII letters are the same in either case (RFC 4343, 3; RFC 4034, 6.1).

ghost use Rattle.base.specs.declared.limits.TheConstants.{INLINE_LABELS, MAX_LABELS};
ghost use Rattle.std.specs.Prelude.{◌≡◌, ◌≢◌, ◌≤◌, ◌↔◌, ◌++◌, ℕ, List, IfNone, IfOk, IfSome, is_ok, IsTrue, true, false, take, drop, length, map, refl};
ghost use Rattle.std.specs.Char.{to_ascii_lowercase};
ghost use Rattle.std.specs.Cmp.{partial_equiv_from_equiv};
ghost use Rattle.std.specs.Cmp.Lexicographic.{slice_cmp};
ghost use Rattle.std.specs.Ordering.{as_partial_cmp, nat_cmp};
ghost use Rattle.base.specs.names.Labels.{NameValue, AreLabels, IsLabelRun, labels_of, wire_of};
ghost use Rattle.base.specs.names.NameOrder.{canonical_cmp, is_zone_of, folded, folded_labels, lowered, labels_cmp, same_labels, same_name, name_cmp, name_fed};
ghost use Rattle.base.specs.names.NameOrderLaws.{same_by-equiv, same_by-tie, cmp_by-total, cmp_by-partial, fed_by-same};

use crate::limits::MAX_LABELS;
use crate::name::{Name, first_label};
use std::alloc::{AllocError, Global};
use std::cmp::Ordering;
use std::hash::{Hash, Hasher};

impl Name {
    /// Whether `other` lies in the zone of this name, or is this name: the labels of this name are the
    /// last labels of `other`, in whatever case. Whether the names are absolute is not looked at.
    pub fn zone_of(&self, other: &Name) -> bool
        ensures last_labels { IsTrue result
            ↔ ((front : List (List ℕ)) × (folded other.now ≡ front ++ folded self.now)) }
        // The answer is that of the definition `is_zone_of`, which other contracts cite.
        ensures test { result ≡ is_zone_of self.now other.now }
    {
        let (count, others) = (self.label_count(), other.label_count());
        count <= others
            && same_in_any_case(past_labels(other.as_wire(), others - count), self.as_wire())
    }

    /// The order of the canonical forms of names: the labels from the left, each after its length, with their
    /// ASCII letters in lower case, by the first byte that differs (RFC 4034, 6.2 and 6.3). Whether the names
    /// are absolute is not looked at.
    pub fn canonical_cmp(&self, other: &Name) -> Ordering
        ensures { result ≡ canonical_cmp self.now other.now }
    {
        cmp_label(self.as_wire(), other.as_wire())
    }

    /// Whether the names are the same in the letter case of their labels too.
    pub fn eq_case(&self, other: &Name) -> bool
        ensures { IsTrue result ↔ (self.now ≡ other.now) }
    {
        self.is_fqdn() == other.is_fqdn() && self.as_wire() == other.as_wire()
    }

    /// The name with its ASCII letters in lower case. Grows memory once, and not at all for a name whose labels take
    /// up to 29 bytes; refused if memory runs out.
    pub(crate) fn to_lowercase(&self, alloc: Global) -> Result<Name, AllocError>
        ensures value { IfOk result (λ n. n ≡ lowered self.now) }
        // A name whose labels take up to 29 bytes takes no memory, and so is never refused.
        ensures inline { length (wire_of self.now.labels) ≤ INLINE_LABELS
            → IsTrue (is_ok result) }
    {
        Ok(Name {
            labels: self.labels.to_ascii_lowercase(alloc)?,
        })
    }
}

impl PartialEq for Name {
    ghost eq = { same_name };

    ghost laws = { partial_equiv_from_equiv (same_by-equiv folded) };

    /// The same flag, and the same labels in whatever case (RFC 4343, 3).
    fn eq(&self, other: &Name) -> bool {
        self.is_fqdn() == other.is_fqdn() && same_in_any_case(self.as_wire(), other.as_wire())
    }
}

impl Eq for Name {
    ghost laws = { same_by-equiv folded };
}

impl Hash for Name {
    ghost hash_input = { name_fed };

    ghost respects_eq = { fed_by-same folded };

    /// Feeds the flag, and the labels with their ASCII letters in lower case, so that equal names hash alike.
    fn hash<H: Hasher>(&self, state: &mut H) {
        self.is_fqdn().hash(state);
        let mut room = [0; MAX_LABELS];
        let wire = self.as_wire();
        lower_into(wire, &mut room);
        state.write(&room[..wire.len()]);
    }
}

impl Ord for Name {
    ghost cmp = { name_cmp };

    ghost total = { cmp_by-total folded };

    ghost matches_partial_cmp = { λ _ _. refl };

    ghost matches_eq = { same_by-tie folded };

    /// Relative names first; then by the labels from the last to the first, each by its bytes in lower
    /// case, what is a beginning before what it begins; then the fewer labels first (RFC 4034, 6.1).
    fn cmp(&self, other: &Name) -> Ordering {
        let flags = self.is_fqdn().cmp(&other.is_fqdn());
        let (left, right) = (self.as_wire(), other.as_wire());
        if let Some(order) = cmp_labels(left, right) {
            return flags.then(order);
        }
        let (count, others) = (self.label_count(), other.label_count());
        let after = past_labels(left, count.saturating_sub(others));
        let others_after = past_labels(right, others.saturating_sub(count));
        flags
            .then(cmp_labels(after, others_after).unwrap_or(Ordering::Equal))
            .then(count.cmp(&others))
    }
}

impl PartialOrd for Name {
    ghost partial_cmp = { as_partial_cmp name_cmp };

    ghost laws = { cmp_by-partial folded };

    fn partial_cmp(&self, other: &Name) -> Option<Ordering> {
        Some(self.cmp(other))
    }
}

/// Whether labels are the same in whatever case.
fn same_in_any_case(left: &[u8], right: &[u8]) -> bool
    requires left { IsLabelRun left.now }
    requires left_labels { AreLabels (labels_of left.now) }
    requires right { IsLabelRun right.now }
    requires right_labels { AreLabels (labels_of right.now) }
    ensures { result
        ≡ same_labels (folded_labels (labels_of left.now)) (folded_labels (labels_of right.now)) }
{
    // Mostly they have the same spelling, and bytes are compared many at once.
    *left == *right || left.eq_ignore_ascii_case(right)
}

/// Puts bytes in lower case at the front of `room`.
fn lower_into(wire: &[u8], room: &mut [u8; MAX_LABELS])
    requires { length wire.now ≤ MAX_LABELS }
    ensures { take (length wire.now) room.new ≡ map to_ascii_lowercase wire.now }
{
    let front = &mut room[..wire.len()];
    front.copy_from_slice(wire);
    front.make_ascii_lowercase();
}

/// The labels after the first `count`.
fn past_labels(wire: &[u8], count: usize) -> &[u8]
    requires { IsLabelRun wire.now }
    ensures labels { labels_of result.now ≡ drop count (labels_of wire.now) }
    // What is left is again labels, each with its length before it.
    ensures whole { IsLabelRun result.now }
{
    let mut rest = wire;
    for _ in 0..count {
        let Some((_, tail)) = first_label(rest) else {
            return rest;
        };
        rest = tail;
    }
    rest
}

/// The order of two labels, their ASCII letters in lower case.
fn cmp_label(left: &[u8], right: &[u8]) -> Ordering
    ensures { result
        ≡ slice_cmp nat_cmp (map to_ascii_lowercase left.now) (map to_ascii_lowercase right.now) }
{
    let shared = left.len().min(right.len());
    let (front, others) = (&left[..shared], &right[..shared]);
    for i in 0..shared {
        if front[i] != others[i] {
            let order = front[i]
                .to_ascii_lowercase()
                .cmp(&others[i].to_ascii_lowercase());
            if order.is_ne() {
                return order;
            }
        }
    }
    left.len().cmp(&right.len())
}

/// The order of labels from the last on, their ASCII letters in lower case; none where one side has more labels.
fn cmp_labels(left: &[u8], right: &[u8]) -> Option<Ordering>
    requires left { IsLabelRun left.now }
    requires right { IsLabelRun right.now }
    ensures some { IfSome result (λ order. (length (labels_of left.now)
        ≡ length (labels_of right.now))
        × (order ≡ labels_cmp (folded_labels (labels_of left.now))
        (folded_labels (labels_of right.now)))) }
    ensures none { IfNone result (length (labels_of left.now) ≢ length (labels_of right.now)) }
{
    let mut order = Ordering::Equal;
    let mut rest = left;
    let mut others = right;
    while let Some((x, xs)) = first_label(rest) {
        let Some((y, ys)) = first_label(others) else {
            return None;
        };
        order = cmp_label(x, y).then(order);
        // Names of one zone mostly end in the same labels.
        if *xs == *ys {
            return Some(order);
        }
        rest = xs;
        others = ys;
    }
    match first_label(others) {
        None => Some(order),
        Some(_) => None,
    }
}

/// Names are equal, and tie in the order, exactly where they have the same flag and the same labels in
/// whatever case (RFC 4343, 3), and then they hash alike; every relative name comes before every absolute one.
pub fn name_order()
    ensures equal { (a b : NameValue)
        → IsTrue (⟦<Name as PartialEq>⟧.eq a b)
        ↔ ((a.absolute ≡ b.absolute) × (folded a ≡ folded b)) }
    ensures ties { (a b : NameValue)
        → (⟦<Name as Ord>⟧.cmp a b ≡ Ordering.Equal)
        ↔ ((a.absolute ≡ b.absolute) × (folded a ≡ folded b)) }
    ensures hashed { (a b : NameValue) → IsTrue (⟦<Name as PartialEq>⟧.eq a b)
        → ⟦<Name as Hash>⟧.hash_input a ≡ ⟦<Name as Hash>⟧.hash_input b }
    ensures relative_first { (a b : NameValue) → a.absolute ≡ false → b.absolute ≡ true
        → ⟦<Name as Ord>⟧.cmp a b ≡ Ordering.Less }
{}
