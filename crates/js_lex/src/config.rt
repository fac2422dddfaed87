//! Whether a lexer keeps its tokens.

ghost use Rattle.std.specs.Prelude.{◌≡◌, Bool, true, false};

/// What a lexer is to keep beside comments, white space and faults.
pub trait LexerConfig: Default + Drop {
    // Whether the tokens are to be kept.
    ghost asks_for_tokens: { Self → Bool };

    /// Whether the tokens are to be kept.
    fn tokens(&self) -> bool
        ensures { result ≡ asks_for_tokens self.now };
}

/// What a parser hands to its lexer.
pub trait ParserConfig: Default + Drop {
    // The config of its lexer.
    type LexerConfig: LexerConfig;

    // Whether the tokens are to be kept.
    ghost asks_for_tokens: { Self → Bool };

    /// A config for the lexer: it asks for tokens exactly where this one does.
    fn lexer_config(&self) -> Self::LexerConfig
        ensures { Self.LexerConfig.asks_for_tokens result ≡ asks_for_tokens self.now };
}

/// No tokens are kept.
#[derive(Debug, Clone, Copy, Default)]
pub struct NoTokensLexerConfig;

/// The tokens are kept.
#[derive(Debug, Clone, Copy, Default)]
pub struct TokensLexerConfig;

/// Whether the tokens are kept is told when the program runs; by default they aren't.
#[derive(Debug, Clone, Copy, Default)]
pub struct RuntimeLexerConfig {
    tokens: bool,
}

impl LexerConfig for NoTokensLexerConfig {
    ghost asks_for_tokens = { λ config. false };

    fn tokens(&self) -> bool {
        false
    }
}

impl LexerConfig for TokensLexerConfig {
    ghost asks_for_tokens = { λ config. true };

    fn tokens(&self) -> bool {
        true
    }
}

impl LexerConfig for RuntimeLexerConfig {
    ghost asks_for_tokens = { λ config. config.tokens };

    fn tokens(&self) -> bool {
        self.tokens
    }
}

/// No tokens are kept.
#[derive(Debug, Clone, Copy, Default)]
pub struct NoTokensParserConfig;

/// The tokens are kept.
#[derive(Debug, Clone, Copy, Default)]
pub struct TokensParserConfig;

/// Whether the tokens are kept is told when the program runs; by default they aren't.
#[derive(Debug, Clone, Copy, Default)]
pub struct RuntimeParserConfig {
    tokens: bool,
}

impl RuntimeParserConfig {
    /// A config that keeps the tokens, or doesn't.
    pub fn new(tokens: bool) -> Self
        ensures { result.tokens ≡ tokens }
    {
        RuntimeParserConfig { tokens }
    }
}

impl ParserConfig for NoTokensParserConfig {
    type LexerConfig = NoTokensLexerConfig;

    ghost asks_for_tokens = { λ config. false };

    fn lexer_config(&self) -> NoTokensLexerConfig {
        NoTokensLexerConfig
    }
}

impl ParserConfig for TokensParserConfig {
    type LexerConfig = TokensLexerConfig;

    ghost asks_for_tokens = { λ config. true };

    fn lexer_config(&self) -> TokensLexerConfig {
        TokensLexerConfig
    }
}

impl ParserConfig for RuntimeParserConfig {
    type LexerConfig = RuntimeLexerConfig;

    ghost asks_for_tokens = { λ config. config.tokens };

    fn lexer_config(&self) -> RuntimeLexerConfig {
        RuntimeLexerConfig {
            tokens: self.tokens,
        }
    }
}
