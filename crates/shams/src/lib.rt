// Wrong operations that the promises shut out, each by a theorem: no program that behaves like that could be proved.
// Uses the promises.
// Nothing uses it. Each must-fail edit puts the honest way in a sham's place: the theorem then says something false.

#![tactic(auto, using(crate::proofs::Breaks::breaks))]

ghost use Rattle.std.specs.Prelude.{◌≡◌, ℕ, List, length};
ghost use Rattle.rfc8391.specs.Suite.{Suite};
ghost use Rattle.rfc8391.specs.declared.Hash.{Hash};
ghost use Rattle.promises.specs.Kept.{secret_for, key_for, AlwaysKept};
ghost use Rattle.shams.specs.Toy.{toys};
ghost use Rattle.shams.specs.Histories.{fixed_index, refusing_all, invented_count, marking_nothing, fixed_signature, writing_nothing, first_honest, keeping_session, signing_unmarked};
ghost use Rattle.shams.specs.Checks.{Kept, honest, fixed, refusing, one_chain};

// That the promises can be kept: the honest way keeps them, over any suites.
pub fn the_honest_check_keeps_the_promises()
    ensures { (suites : Hash → Suite) → Kept suites (honest suites) }
{}

pub fn a_fixed_outcome_breaks_a_promise()
    ensures { (suites : Hash → Suite) (outcome : ℕ) → Kept suites (fixed suites outcome) → ⊥ }
{}

pub fn refusing_everything_breaks_a_promise()
    ensures { Kept toys (refusing toys) → ⊥ }
{}

pub fn checking_one_chain_breaks_a_promise()
    ensures { Kept toys (one_chain toys) → ⊥ }
{}

// Over histories of a key that making wrote.
pub fn one_fixed_index_breaks_demand_three()
    ensures { (material : List ℕ) → length material ≡ 96 → AlwaysKept (fixed_index (secret_for material)) (key_for material) → ⊥ }
{}

pub fn reserving_that_refuses_everything_breaks_demand_three()
    ensures { (material : List ℕ) → length material ≡ 96 → AlwaysKept (refusing_all (secret_for material)) (key_for material) → ⊥ }
{}

pub fn an_invented_count_breaks_demand_three()
    ensures { (material : List ℕ) → length material ≡ 96 → AlwaysKept (invented_count (secret_for material)) (key_for material) → ⊥ }
{}

pub fn marking_that_writes_nothing_breaks_demand_three()
    ensures { (material : List ℕ) → length material ≡ 96 → AlwaysKept (marking_nothing (secret_for material)) (key_for material) → ⊥ }
{}

pub fn signing_that_writes_nothing_breaks_demand_three()
    ensures { (material : List ℕ) → length material ≡ 96 → AlwaysKept (writing_nothing (secret_for material)) (key_for material) → ⊥ }
{}

pub fn one_honest_signature_breaks_demand_three()
    ensures { (material : List ℕ) → length material ≡ 96 → AlwaysKept (first_honest (secret_for material)) (key_for material) → ⊥ }
{}

pub fn one_fixed_signature_breaks_demand_three()
    ensures { (material signature : List ℕ) → length material ≡ 96 → AlwaysKept (fixed_signature (secret_for material) signature) (key_for material) → ⊥ }
{}

pub fn keeping_the_session_breaks_demand_three()
    ensures { (material : List ℕ) → length material ≡ 96 → AlwaysKept (keeping_session (secret_for material)) (key_for material) → ⊥ }
{}

pub fn signing_without_its_mark_breaks_demand_three()
    ensures { (material : List ℕ) → length material ≡ 96 → AlwaysKept (signing_unmarked (secret_for material)) (key_for material) → ⊥ }
{}
