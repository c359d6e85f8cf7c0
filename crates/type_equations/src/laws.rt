//! What holds of equations and their solutions, for callers to cite.
ghost use Rattle.std.specs.Prelude.{◌≡◌, ◌<◌, ◌≤◌, ◌++◌, ℕ, List, Some, length, slice_get};
ghost use Rattle.eb_value.specs.declared.types.EbType.{EbType};
ghost use Rattle.type_equations.specs.declared.equation.Equation.{Equation};
ghost use Rattle.type_equations.specs.Equations as spec;

/// Equations one after another: types solve them just where they solve both parts. They speak of types below a number
/// where both parts do, and then below each larger number.
pub fn equations_join()
    ensures solved { (σ : ℕ → EbType) → (xs ys : List Equation) → spec.Solves σ xs → spec.Solves σ ys → spec.Solves σ (xs ++ ys) }
    ensures solves { (σ : ℕ → EbType) → (xs ys : List Equation) → spec.Solves σ (xs ++ ys) → spec.Solves σ xs × spec.Solves σ ys }
    ensures below { (n : ℕ) → (xs ys : List Equation) → spec.AreBelow n xs → spec.AreBelow n ys → spec.AreBelow n (xs ++ ys) }
    ensures more { (m n : ℕ) → (xs : List Equation) → m ≤ n → spec.AreBelow m xs → spec.AreBelow n xs }
{}

/// Types of numbers that equations don't speak of don't matter to them.
pub fn other_types_are_free()
    ensures { (n : ℕ) → (σ τ : ℕ → EbType) → (xs : List Equation) → spec.AreBelow n xs → ((k : ℕ) → k < n → σ k ≡ τ k) → spec.Solves σ xs → spec.Solves τ xs }
{}

/// The list of types has each type at its number's place.
pub fn types_are_in_order()
    ensures count { (n : ℕ) → (σ : ℕ → EbType) → length (spec.types_below n σ) ≡ n }
    ensures places { (n k : ℕ) → (σ : ℕ → EbType) → k < n → slice_get (spec.types_below n σ) k ≡ Some (σ k) }
{}
