// What holds of the ends of statements, of blanks and of tokens, whoever cuts a text. Nothing here runs: each contract is a law.
ghost use Rattle.std.specs.Prelude.{◌≡◌, ℕ, ◌<◌, ◌≤◌, All, List, [], ◌∷◌, ◌++◌, length, take, Some};
ghost use Rattle.sql_tree.specs.declared.token.Token.{Token};
ghost use Rattle.sql_tree.specs.declared.token.TokenKind.{TokenKind};
ghost use Rattle.sql_lex.specs.Alone.{IsItself};
ghost use Rattle.sql_lex.specs.Cutting.{blank_width, end_among, is_end, statement_end};
ghost use Rattle.sql_lex.specs.Gaps.{MakeUp};
ghost use Rattle.sql_lex.specs.Places.{IsFirst};
ghost use Rattle.sql_lex.specs.Tokens.{tokens_of};

/// The token that ends a statement is the first that may end it, and where none ends it, none may.
pub fn the_end_is_the_first()
    ensures { (kinds : List TokenKind) → IsFirst (is_end kinds) (length kinds) (end_among kinds) }
{}

/// A statement that is ended stays so, at the same byte, whatever stands behind the text.
pub fn an_end_stays()
    ensures { (text more : List ℕ) (end : ℕ) → statement_end text ≡ Some end → statement_end (text ++ more) ≡ Some end }
{}

/// A blank that ends in front of the end of a text stays as it is, whatever stands behind the text. So does a token there, in a
/// text of more than one byte: `-` and `/` alone may each be the first byte of a comment.
pub fn a_blank_stays()
    ensures { (text more : List ℕ) → 2 ≤ length text → blank_width text < length text → blank_width (text ++ more) ≡ blank_width text }
{}

/// A text is made up of its tokens, in their order, and of white space and comments in front of them and behind the last. Each token is
/// what the text goes on with where it starts.
pub fn tokens_make_up_the_text()
    ensures { (text : List ℕ) → MakeUp text 0 (tokens_of text) }
{}

/// The bytes of a token, alone, are that token and no other. Only of `?` what stands in front of it counts: alone it is parameter 1,
/// in a text the one behind the largest so far, or, behind 999, none.
pub fn a_token_alone_is_itself()
    ensures { (text : List ℕ) → All (IsItself text) (tokens_of text) }
{}

/// A text that is cut behind one of its tokens has the tokens up to this one, and no others.
pub fn a_cut_text_keeps_its_tokens()
    ensures { (text : List ℕ) (front behind : List Token) (t : Token) → tokens_of text ≡ front ++ t ∷ behind → tokens_of (take t.span.end text) ≡ front ++ t ∷ [] }
{}
