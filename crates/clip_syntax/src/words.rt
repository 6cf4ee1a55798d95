//! The words of a query's items.
ghost use Rattle.std.specs.Prelude.{◌≡◌, map, not, is_some, IfOk, IfSome};
ghost use Rattle.std.specs.Option.{option_map};
ghost use Rattle.std.specs.Arc.{arc_str_bytes};
ghost use Rattle.clip_words.specs.Words.{words_of};
ghost use Rattle.clip_grammar.specs.Steps.Parser.{begins_colon};
ghost use Rattle.clip_grammar.specs.Shape as shape;
ghost use Rattle.clip_grammar.specs.Shape.{Written, lacks_words};
ghost use Rattle.clip_syntax.specs.Steps.Items.{item_text, items_words, words_of_items};
ghost use Rattle.clip_syntax.specs.Steps.TokenOf.{token_of, IfWritten};

use crate::token::{Token, begins_colon};
use clip_words::{NoMemory, shared_words};
use std::alloc::Global;
use std::sync::ArcStr;

/// The text of a plain or quoted item; of another token none. A word before a colon is a field. Constant time.
pub fn item_text(token: &Token, before_colon: bool) -> Option<&str>
    ensures { option_map (λ text. text.now) result ≡ item_text (token_of token.now) before_colon }
{
    match token {
        Token::Plain(text) if !before_colon => Some(text),
        Token::Phrase(text) => Some(text),
        _ => None,
    }
}

/// The words of each plain or quoted item in order, or `None` where an item has no words.
///
/// A plain word before a colon is a field, and no item. Each word is cut and folded once, and is then shared.
/// `NoMemory` where a growth is refused. The cost is linear in the bytes of the tokens.
pub fn item_words(alloc: Global, tokens: &[Token]) -> Result<Option<Vec<Vec<ArcStr>>>, NoMemory>
    ensures words { IfOk result (λ found. IfSome found
        (λ items. words_of_items items.items ≡ items_words (map token_of tokens.now))) }
    ensures lacking { IfOk result (λ found. IfWritten tokens.now
        (λ written. is_some found ≡ not (lacks_words written))) }
{
    let mut items = Vec::new(alloc);
    let mut rest = tokens;
    while let Some((token, after)) = rest.split_first() {
        rest = after;
        if let Some(text) = item_text(token, begins_colon(rest)) {
            let words = shared_words(alloc, text)?;
            if words.is_empty() {
                return Ok(None);
            }
            items.push(words)?;
        }
    }
    Ok(Some(items))
}
