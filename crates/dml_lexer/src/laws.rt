//! Laws of tokens: what holds of every text, whatever code reads it.
ghost use Rattle.std.specs.Prelude.{◌≡◌, ◌⊎◌, ℕ, List, All};
ghost use Rattle.dml_lexer.specs.declared.lexer.Token.{Token};
ghost use Rattle.dml_lexer.specs.declared.lexer.LexFault.TheVariants.{BadByte, OpenQuote};
ghost use Rattle.dml_lexer.specs.Tokens.{Spelt, Unspelt, HasItsBytes, AreInOrder};

/// A text has at most one list of tokens.
pub fn one_list()
    ensures { (bytes : List ℕ) (tokens other : List Token) → Spelt bytes tokens → Spelt bytes other → tokens ≡ other }
{}

/// A text has tokens, or a fault.
pub fn each_text()
    ensures { (bytes : List ℕ) → ((tokens : List Token) × Spelt bytes tokens) ⊎ (((at : ℕ) × Unspelt bytes (BadByte at)) ⊎ ((at : ℕ) × Unspelt bytes (OpenQuote at))) }
{}

/// A text that has tokens has no fault.
pub fn no_fault()
    ensures bad_byte { (bytes : List ℕ) (tokens : List Token) (at : ℕ) → Spelt bytes tokens → ¬ (Unspelt bytes (BadByte at)) }
    ensures open_quote { (bytes : List ℕ) (tokens : List Token) (at : ℕ) → Spelt bytes tokens → ¬ (Unspelt bytes (OpenQuote at)) }
{}

/// A text has at most one fault.
pub fn one_fault()
    ensures bad_byte { (bytes : List ℕ) (at other : ℕ) → Unspelt bytes (BadByte at) → Unspelt bytes (BadByte other) → at ≡ other }
    ensures open_quote { (bytes : List ℕ) (at other : ℕ) → Unspelt bytes (OpenQuote at) → Unspelt bytes (OpenQuote other) → at ≡ other }
    ensures not_both { (bytes : List ℕ) (at other : ℕ) → Unspelt bytes (BadByte at) → ¬ (Unspelt bytes (OpenQuote other)) }
{}

/// Each token of a text has the bytes of its kind: those of a word are word bytes, and at least one; a quoted text
/// begins and ends with a quote, and no quote stands between the two; a bracket is its one byte.
pub fn tokens_have_their_bytes()
    ensures { (bytes : List ℕ) (tokens : List Token) → Spelt bytes tokens → All (HasItsBytes bytes) tokens }
{}

/// The tokens of a text stand one after another, and none is empty.
pub fn tokens_are_in_order()
    ensures { (bytes : List ℕ) (tokens : List Token) → Spelt bytes tokens → AreInOrder 0 tokens }
{}
