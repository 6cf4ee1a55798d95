//! Rules by which remarks are made, each with how much it matters, its name, and a sentence for people.
ghost use Rattle.std.specs.Prelude.{◌≡◌};
ghost use Rattle.clip_remarks.specs.Rules.{level_of, name_of, sentence_of};

/// How much a remark matters.
#[derive(Clone, Copy)]
pub enum Level {
    /// How queries are read in general.
    Hint,
    /// The text may be meant otherwise.
    Notice,
    /// The text is most likely meant otherwise.
    Warning,
}

/// Why a remark is made.
#[derive(Clone, Copy)]
pub enum Rule {
    /// All clauses of the text, or of a group, exclude.
    OnlyExcludes,
    /// No operator stands between two clauses, where both begin with a capital or an operator stands beside.
    BareBlank,
    /// No operator stands between two clauses, elsewhere.
    BlankIsOr,
    /// A clause without a field follows one with a field, with no operator between.
    FieldOfOneClause,
    /// The next operator of the same group is `OR` after `AND`, or `AND` after `OR`.
    AndBesideOr,
    /// A clause that excludes stands beside `OR`.
    OrNot,
    /// A sign stands right behind a word.
    SignBehindWord,
    /// A blank follows a sign.
    LooseSign,
    /// `and`, `or` or `not`, not all in capitals.
    LowerCaseOperator,
    /// An operator of another syntax, as `NEAR` or `atleast2`.
    ForeignOperator,
    /// A word stands right before a parenthesis.
    WordBeforeParenthesis,
    /// The name of a field is `title` or `text` but for case.
    FieldCase,
    /// A field other than `title` and `text`.
    OtherField,
    /// A comma or a semicolon that is no part of a word.
    CommaList,
    /// A quote that makes no phrase, as a curly one.
    OtherQuote,
    /// A sign stands before or behind a word, and is no part of it.
    DroppedSign,
    /// A word with a sign inside is read as a phrase.
    SignMakesPhrase,
    /// A prefix has a sign at which words end.
    SignInPrefix,
    /// A star between quotes.
    WildcardInQuotes,
    /// `AND`, `OR`, `NOT` or `NEAR` between quotes.
    OperatorInQuotes,
    /// A sign between quotes that is no part of a word.
    SignInQuotes,
    /// A word of two or more capitals.
    Capitals,
    /// A word has an apostrophe.
    Apostrophe,
    /// An end of a range has a digit.
    RangeOfDigits,
    /// The text names no field.
    TextFieldOnly,
    /// The text has words.
    ExactWords,
}

/// All rules, in the order in which remarks of one place stand.
pub const RULES: [Rule; 26] = [
    Rule::OnlyExcludes,
    Rule::BareBlank,
    Rule::BlankIsOr,
    Rule::FieldOfOneClause,
    Rule::AndBesideOr,
    Rule::OrNot,
    Rule::SignBehindWord,
    Rule::LooseSign,
    Rule::LowerCaseOperator,
    Rule::ForeignOperator,
    Rule::WordBeforeParenthesis,
    Rule::FieldCase,
    Rule::OtherField,
    Rule::CommaList,
    Rule::OtherQuote,
    Rule::DroppedSign,
    Rule::SignMakesPhrase,
    Rule::SignInPrefix,
    Rule::WildcardInQuotes,
    Rule::OperatorInQuotes,
    Rule::SignInQuotes,
    Rule::Capitals,
    Rule::Apostrophe,
    Rule::RangeOfDigits,
    Rule::TextFieldOnly,
    Rule::ExactWords,
];

impl Rule {
    /// How much a remark by the rule matters. Constant time.
    pub fn level(self) -> Level
        ensures { result ≡ level_of self }
    {
        match self {
            Rule::BlankIsOr | Rule::OtherField | Rule::TextFieldOnly | Rule::ExactWords =>
                Level::Hint,
            Rule::LooseSign
            | Rule::CommaList
            | Rule::SignMakesPhrase
            | Rule::OperatorInQuotes
            | Rule::SignInQuotes
            | Rule::Capitals
            | Rule::Apostrophe
            | Rule::RangeOfDigits => Level::Notice,
            _ => Level::Warning,
        }
    }

    /// The rule's name in snake case. Constant time.
    pub fn name(self) -> &'static str
        ensures { result.now ≡ name_of self }
    {
        match self {
            Rule::OnlyExcludes => "only_excludes",
            Rule::BareBlank => "bare_blank",
            Rule::BlankIsOr => "blank_is_or",
            Rule::FieldOfOneClause => "field_of_one_clause",
            Rule::AndBesideOr => "and_beside_or",
            Rule::OrNot => "or_not",
            Rule::SignBehindWord => "sign_behind_word",
            Rule::LooseSign => "loose_sign",
            Rule::LowerCaseOperator => "lower_case_operator",
            Rule::ForeignOperator => "foreign_operator",
            Rule::WordBeforeParenthesis => "word_before_parenthesis",
            Rule::FieldCase => "field_case",
            Rule::OtherField => "other_field",
            Rule::CommaList => "comma_list",
            Rule::OtherQuote => "other_quote",
            Rule::DroppedSign => "dropped_sign",
            Rule::SignMakesPhrase => "sign_makes_phrase",
            Rule::SignInPrefix => "sign_in_prefix",
            Rule::WildcardInQuotes => "wildcard_in_quotes",
            Rule::OperatorInQuotes => "operator_in_quotes",
            Rule::SignInQuotes => "sign_in_quotes",
            Rule::Capitals => "capitals",
            Rule::Apostrophe => "apostrophe",
            Rule::RangeOfDigits => "range_of_digits",
            Rule::TextFieldOnly => "text_field_only",
            Rule::ExactWords => "exact_words",
        }
    }

    /// What a remark by the rule says to people, in one sentence. Constant time.
    pub fn says(self) -> &'static str
        ensures { result.now ≡ sentence_of self }
    {
        match self {
            Rule::OnlyExcludes => "Clauses that only exclude find nothing: put *:* before them.",
            Rule::BareBlank =>
                "A blank is read as OR: write AND between the two, or quotes around them.",
            Rule::BlankIsOr => "A blank is read as OR, so one of the two is enough.",
            Rule::FieldOfOneClause =>
                "A field counts for one clause only: put parentheses around all that it is for.",
            Rule::AndBesideOr =>
                "AND binds no closer than OR: put parentheses around what belongs together.",
            Rule::OrNot => "What is excluded is excluded from the whole group, also beside OR.",
            Rule::SignBehindWord =>
                "The sign is no part of the word: it counts for the clause that comes next.",
            Rule::LooseSign => "The sign counts for the clause that comes next: it is no dash.",
            Rule::LowerCaseOperator =>
                "This is a word that is looked for: operators are written in capitals.",
            Rule::ForeignOperator =>
                "This is a word that is looked for: there is no such operator here.",
            Rule::WordBeforeParenthesis =>
                "The word before the parenthesis is a clause of its own, and OR stands between.",
            Rule::FieldCase => "Case counts in the names of fields: they are title and text.",
            Rule::OtherField => "This finds only articles that are sent with a field of this name.",
            Rule::CommaList => "The comma is dropped, and OR stands in its place after a blank.",
            Rule::OtherQuote => "Only straight double quotes make a phrase: others are dropped.",
            Rule::DroppedSign =>
                "A sign that is no part of a word is dropped: it is not looked for.",
            Rule::SignMakesPhrase =>
                "A word that a sign divides is read as the phrase of its parts, without the sign.",
            Rule::SignInPrefix =>
                "A prefix is compared with one word, and no word begins with this.",
            Rule::WildcardInQuotes => "A star between quotes is dropped: it is no wild card there.",
            Rule::OperatorInQuotes => "Between quotes an operator is a word like others.",
            Rule::SignInQuotes => "The sign between the quotes is dropped: it is not looked for.",
            Rule::Capitals => "Case does not count: the word is also found in small letters.",
            Rule::Apostrophe =>
                "An apostrophe is part of its word, and a straight one is not a curly one.",
            Rule::RangeOfDigits => "A range compares letter by letter, so that 10 comes before 9.",
            Rule::TextFieldOnly => "Only the field text is searched, and not the title.",
            Rule::ExactWords =>
                "Words are found as they are spelled, in any case: no other forms, accents or compounds.",
        }
    }
}
