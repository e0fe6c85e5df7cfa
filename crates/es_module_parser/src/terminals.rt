ghost use Rattle.std.specs.Prelude.{◌≡◌, ◌&&◌, ◌||◌, bytes_eq, codes};
ghost use Rattle.module_spec.specs.Places.{is_name_kind, is_text_kind, is_punctuator_kind};
ghost use Rattle.es_module_parser.specs.Progress.{word_is, mark_is, exported_is};

use module_spec::Kind;

/// Whether a token is a name. ECMA-262, 12.7.
pub fn is_name(kind: Kind) -> bool
    ensures { result ≡ is_name_kind kind }
{
    match kind {
        Kind::Name => true,
        Kind::Private => false,
        Kind::Number => false,
        Kind::Text => false,
        Kind::TemplateWhole => false,
        Kind::TemplateHead => false,
        Kind::TemplateMiddle => false,
        Kind::TemplateTail => false,
        Kind::Regex => false,
        Kind::Punctuator => false,
    }
}

/// Whether a token is a string literal. ECMA-262, 12.9.4.
pub fn is_text(kind: Kind) -> bool
    ensures { result ≡ is_text_kind kind }
{
    match kind {
        Kind::Name => false,
        Kind::Private => false,
        Kind::Number => false,
        Kind::Text => true,
        Kind::TemplateWhole => false,
        Kind::TemplateHead => false,
        Kind::TemplateMiddle => false,
        Kind::TemplateTail => false,
        Kind::Regex => false,
        Kind::Punctuator => false,
    }
}

fn is_punctuator(kind: Kind) -> bool
    ensures { result ≡ is_punctuator_kind kind }
{
    match kind {
        Kind::Name => false,
        Kind::Private => false,
        Kind::Number => false,
        Kind::Text => false,
        Kind::TemplateWhole => false,
        Kind::TemplateHead => false,
        Kind::TemplateMiddle => false,
        Kind::TemplateTail => false,
        Kind::Regex => false,
        Kind::Punctuator => true,
    }
}

/// Whether a token of this kind and spelling is this name.
pub fn is_word(kind: Kind, text: &[u8], word: &[u8]) -> bool
    ensures { result ≡ word_is kind text.now word.now }
{
    is_name(kind) && text == word
}

/// Whether a token of this kind and spelling is this punctuator.
pub fn is_mark(kind: Kind, text: &[u8], mark: &[u8]) -> bool
    ensures { result ≡ mark_is kind text.now mark.now }
{
    is_punctuator(kind) && text == mark
}

/// Whether a token is a word that an `export` without a module specifier goes on with. ECMA-262, 16.2.3.
pub fn is_exported(kind: Kind, text: &[u8]) -> bool
    ensures { result ≡ exported_is kind text.now }
{
    is_word(kind, text, b"default".as_slice())
        || is_word(kind, text, b"var".as_slice())
        || is_word(kind, text, b"let".as_slice())
        || is_word(kind, text, b"const".as_slice())
        || is_word(kind, text, b"function".as_slice())
        || is_word(kind, text, b"class".as_slice())
        || is_word(kind, text, b"async".as_slice())
}
