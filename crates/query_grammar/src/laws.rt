//! Laws of what a text says as a query.

ghost use Rattle.std.specs.Prelude.{◌≡◌, ◌<◌, ◌≤◌, ◌⊎◌, ◌↔◌, ℕ, List, length, Ok, Err};
ghost use Rattle.query_tree.specs.Tree.{Tree};
ghost use Rattle.query_tree.specs.Grammar.{QueryText};
ghost use Rattle.query_grammar.specs.Places.{IsPlace};
ghost use Rattle.query_grammar.specs.Said.{filter_of, query_of};

/// The law that a text spells one tree at most, in however many levels.
pub fn queries_have_one_tree()
    ensures { (m n : ℕ) (text : List ℕ) (t u : Tree) → QueryText m text t → QueryText n text u → t ≡ u }
{}

/// The law that what a text says, as a function of the text, is what the grammar says: the tree exactly where the text
/// spells it, and the place of a fault exactly where the text spells nothing and that is the place.
pub fn queries_say_their_trees()
    ensures filter { (text : List ℕ) (t : Tree) → (filter_of text ≡ Ok t) ↔ QueryText 64 text t }
    ensures filter_place { (text : List ℕ) (at : ℕ) → (filter_of text ≡ Err at) ↔ (IsPlace 64 text at × ((t : Tree) → ¬ (QueryText 64 text t))) }
    // A query has at most 4,096 bytes.
    ensures query { (text : List ℕ) (t : Tree) → (query_of text ≡ Ok t) ↔ (QueryText 64 text t × (length text ≤ 4096)) }
    ensures query_place { (text : List ℕ) (at : ℕ) → (query_of text ≡ Err at) ↔ (((4096 < length text) × (at ≡ 4096)) ⊎ ((length text ≤ 4096) × IsPlace 64 text at × ((t : Tree) → ¬ (QueryText 64 text t)))) }
{}
