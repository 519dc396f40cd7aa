//! What the shape of a tree says of its parts, as laws.

ghost use Rattle.rmt_syntax.specs.declared.tree.Rule.{Rule};
ghost use Rattle.rmt_syntax.specs.declared.tree.Tree.{Tree};
ghost use Rattle.rmt_lexer.specs.Text.{EndsOnce};
ghost use Rattle.rmt_lexer.specs.declared.token.Token.{Token};
ghost use Rattle.rmt_syntax.specs.Trees.{HasFault, HasTree, IsFault, IsOf, IsNodeOf, IsTokenOf, IsTreeOf, Reads, part, marks};
ghost use Rattle.rmt_syntax.specs.declared.grammar.Part.TheVariants.{One};
ghost use Rattle.rmt_syntax.specs.declared.terminal.Terminal.{Terminal};
ghost use Rattle.std.specs.Prelude.{◌≡◌, ◌<◌, ◌^◌, ◌⊎◌, ℕ, List, [], ◌∷◌, length};

/// A tree of a rule is a node of that rule, and its parts are those of the rule's text, each a token or a tree of its rule.
#[tactic(auto, using(crate::proofs::Forests::node_shape))]
pub fn node_parts()
    ensures { (r : Rule) (t : Tree) → IsOf r t → IsNodeOf r t }
{}

/// A tree that stands where a token is to stand is that token.
#[tactic(auto, using(crate::proofs::Forests::token_shape))]
pub fn token_part()
    ensures { (c : Terminal) (t : Tree) → Reads (part (One c) ∷ []) (marks t) → IsTokenOf c t }
{}

/// Each list of tokens that ends once has a tree or a fault, and not both; two trees of one list are equal, and so are
/// two faults.
pub fn tree_or_fault()
    ensures some { (tokens : List Token) → EndsOnce tokens → HasTree tokens ⊎ HasFault tokens }
    ensures apart { (tokens : List Token) → EndsOnce tokens → HasTree tokens → HasFault tokens → ⊥ }
    ensures one_tree { (tokens : List Token) (t u : Tree) → EndsOnce tokens → IsTreeOf tokens t → IsTreeOf tokens u → t ≡ u }
    ensures one_fault { (tokens : List Token) (a b l m j k : ℕ) → EndsOnce tokens → IsFault tokens a l j → IsFault tokens b m k → (a ≡ b) × (l ≡ m) × (j ≡ k) }
{}
