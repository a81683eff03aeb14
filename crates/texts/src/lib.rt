// Numbers in text, as the programs read them.
#![tactic(auto)]

ghost use Rattle.texts.specs.Digits.{IsRead};

use std::str::FromStr;

#[cfg(test)]
mod tests;

// The number that a text of decimal digits writes, where it has one of this type. `parse` alone would take a sign too.
pub fn number<N: FromStr>(text: &str) -> Option<N>
where
    N::Err: Drop,
    ensures { IsRead N.from_str_gives text.now result }
{
    if !text.bytes().all(|byte| byte.is_ascii_digit()) {
        return None;
    }
    text.parse().ok()
}
