ghost use Rattle.std.specs.Prelude.{◌≡◌};
ghost use Rattle.grammar_spec.specs.Sights.{reserved, assignment_operators, operators};
ghost use Rattle.grammar_tokens.specs.Spots.{key_ends, short_ends};
ghost use Rattle.grammar_spots.specs.Words.{closing, is_one_of, reserved_first, reserved_second, reserved_third, reserved_last};
ghost use Rattle.grammar_spots.specs.Words.{assignments_first, assignments_last, operators_first, operators_last};

// The first twelve reserved words.
fn is_reserved_first(text: &[u8]) -> bool
    ensures { result ≡ is_one_of text.now reserved_first }
{
    text == b"await".as_slice()
        || text == b"break".as_slice()
        || text == b"case".as_slice()
        || text == b"catch".as_slice()
        || text == b"class".as_slice()
        || text == b"const".as_slice()
        || text == b"continue".as_slice()
        || text == b"debugger".as_slice()
        || text == b"default".as_slice()
        || text == b"delete".as_slice()
        || text == b"do".as_slice()
        || text == b"else".as_slice()
}

// The next twelve.
fn is_reserved_second(text: &[u8]) -> bool
    ensures { result ≡ is_one_of text.now reserved_second }
{
    text == b"enum".as_slice()
        || text == b"export".as_slice()
        || text == b"extends".as_slice()
        || text == b"false".as_slice()
        || text == b"finally".as_slice()
        || text == b"for".as_slice()
        || text == b"function".as_slice()
        || text == b"if".as_slice()
        || text == b"implements".as_slice()
        || text == b"import".as_slice()
        || text == b"in".as_slice()
        || text == b"instanceof".as_slice()
}

// The next twelve.
fn is_reserved_third(text: &[u8]) -> bool
    ensures { result ≡ is_one_of text.now reserved_third }
{
    text == b"interface".as_slice()
        || text == b"let".as_slice()
        || text == b"new".as_slice()
        || text == b"null".as_slice()
        || text == b"package".as_slice()
        || text == b"private".as_slice()
        || text == b"protected".as_slice()
        || text == b"public".as_slice()
        || text == b"return".as_slice()
        || text == b"static".as_slice()
        || text == b"super".as_slice()
        || text == b"switch".as_slice()
}

// The others.
fn is_reserved_last(text: &[u8]) -> bool
    ensures { result ≡ is_one_of text.now reserved_last }
{
    text == b"this".as_slice()
        || text == b"throw".as_slice()
        || text == b"true".as_slice()
        || text == b"try".as_slice()
        || text == b"typeof".as_slice()
        || text == b"var".as_slice()
        || text == b"void".as_slice()
        || text == b"while".as_slice()
        || text == b"with".as_slice()
        || text == b"yield".as_slice()
}

// The first eight operators of assignments.
fn is_assignments_first(text: &[u8]) -> bool
    ensures { result ≡ is_one_of text.now assignments_first }
{
    text == b"=".as_slice()
        || text == b"*=".as_slice()
        || text == b"**=".as_slice()
        || text == b"/=".as_slice()
        || text == b"%=".as_slice()
        || text == b"+=".as_slice()
        || text == b"-=".as_slice()
        || text == b"<<=".as_slice()
}

// The others.
fn is_assignments_last(text: &[u8]) -> bool
    ensures { result ≡ is_one_of text.now assignments_last }
{
    text == b">>=".as_slice()
        || text == b">>>=".as_slice()
        || text == b"&=".as_slice()
        || text == b"^=".as_slice()
        || text == b"|=".as_slice()
        || text == b"&&=".as_slice()
        || text == b"||=".as_slice()
        || text == b"??=".as_slice()
}

// The first twelve operators between two operands.
fn is_operators_first(text: &[u8]) -> bool
    ensures { result ≡ is_one_of text.now operators_first }
{
    text == b"**".as_slice()
        || text == b"*".as_slice()
        || text == b"/".as_slice()
        || text == b"%".as_slice()
        || text == b"+".as_slice()
        || text == b"-".as_slice()
        || text == b"<<".as_slice()
        || text == b">>".as_slice()
        || text == b">>>".as_slice()
        || text == b"<".as_slice()
        || text == b">".as_slice()
        || text == b"<=".as_slice()
}

// The others.
fn is_operators_last(text: &[u8]) -> bool
    ensures { result ≡ is_one_of text.now operators_last }
{
    text == b">=".as_slice()
        || text == b"==".as_slice()
        || text == b"!=".as_slice()
        || text == b"===".as_slice()
        || text == b"!==".as_slice()
        || text == b"&".as_slice()
        || text == b"^".as_slice()
        || text == b"|".as_slice()
        || text == b"&&".as_slice()
        || text == b"||".as_slice()
        || text == b"??".as_slice()
        || text == b"instanceof".as_slice()
}

/// The text is a word that names nothing in the code of a module.
#[tactic(auto, using(crate::proofs::WordParts::reserved_are))]
pub fn is_reserved(text: &[u8]) -> bool
    ensures { result ≡ is_one_of text.now reserved }
{
    is_reserved_first(text)
        || is_reserved_second(text)
        || is_reserved_third(text)
        || is_reserved_last(text)
}

/// The text is `=` or an operator that ends in it.
#[tactic(auto, using(crate::proofs::WordParts::assignment_operators_are))]
pub fn is_assignment(text: &[u8]) -> bool
    ensures { result ≡ is_one_of text.now assignment_operators }
{
    is_assignments_first(text) || is_assignments_last(text)
}

/// The text is an operator between two operands, other than `in`.
#[tactic(auto, using(crate::proofs::WordParts::operators_are))]
pub fn is_operator(text: &[u8]) -> bool
    ensures { result ≡ is_one_of text.now operators }
{
    is_operators_first(text) || is_operators_last(text)
}

/// The text is a closing bracket.
pub fn is_closing(text: &[u8]) -> bool
    ensures { result ≡ is_one_of text.now closing }
{
    text == b")".as_slice() || text == b"]".as_slice() || text == b"}".as_slice()
}

/// Behind a word, the text says that the word is a key itself.
pub fn is_key_end(text: &[u8]) -> bool
    ensures { result ≡ is_one_of text.now key_ends }
{
    text == b"(".as_slice()
        || text == b",".as_slice()
        || text == b";".as_slice()
        || text == b":".as_slice()
        || text == b"=".as_slice()
        || text == b"}".as_slice()
}

/// Behind a name, the text says that the name is a property and its value.
pub fn is_short_end(text: &[u8]) -> bool
    ensures { result ≡ is_one_of text.now short_ends }
{
    text == b",".as_slice() || text == b"=".as_slice() || text == b"}".as_slice()
}
