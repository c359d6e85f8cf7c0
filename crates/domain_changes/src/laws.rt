//! What holds of the changes of domains, for callers to cite.
ghost use Rattle.std.specs.Prelude.{◌≡◌, ◌<◌, ◌≤◌, true, Some};
ghost use Rattle.occ_domains.specs.Domains.{is_normal, meet};
ghost use Rattle.occ_domains.specs.declared.domain.Domain.{Domain};
ghost use Rattle.occ_domains.specs.declared.tests.Test.{Test};
ghost use Rattle.occ_domains.specs.Tests.{parts};
ghost use Rattle.domain_changes.specs.Room.{room};

/// What a domain in normal form has in common with another leaves room for fewer changes, unless it is that domain.
pub fn meets_leave_less_room()
    ensures less { (a b : Domain) → is_normal a ≡ true → (meet a b ≡ a → ⊥) → room (meet a b) < room a }
    ensures most { (a b : Domain) → is_normal a ≡ true → room (meet a b) ≤ room a }
{}

/// The two parts of a domain by a test leave no more room than the domain.
pub fn parts_leave_no_more_room()
    ensures parts { (d : Domain) (t : Test) (two : Domain × Domain) → is_normal d ≡ true → parts d t ≡ Some two
        → (room two.0 ≤ room d) × (room two.1 ≤ room d) }
{}
