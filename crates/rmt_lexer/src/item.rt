//! What stands first in a text: a token, a gap or a fault.

ghost use Rattle.std.specs.Prelude.{◌≡◌, ◌-◌, ◌<◌, ◌≤◌, ◌^◌, length, drop, not, ◌==◌, ◌||◌, ℕ, IfOk, SomeIff};
ghost use Rattle.std.specs.List.{take_while};
ghost use Rattle.rmt_ast.specs.NameForm.{is_letter, is_name_byte};
ghost use Rattle.rmt_bits.specs.Digits.{is_digit, is_hex, number_of_digits};
ghost use Rattle.rmt_lexer.specs.Text.{is_space, is_sign, number_item, hex_item, item_of};
ghost use Rattle.rmt_lexer.specs.declared.item.Item.TheVariants as item;
ghost use Rattle.rmt_lexer.specs.declared.token.TokenKind.TheVariants.{Word};

use crate::token::TokenKind;
use rmt_ast::name::Name;
use rmt_bits::digits::{digits_len, hex_len, is_digit, is_hex_number, number_up_to};
use std::alloc::{AllocError, Global};

/// What begins a text, with the number of its bytes.
pub enum Item {
    /// White space or a comment.
    Gap(usize),
    Token(TokenKind, usize),
    /// The number of the rule that is broken.
    Fault(u8),
}

fn is_space(byte: u8) -> bool
    ensures { result ≡ is_space byte }
{
    byte == b' ' || byte == b'\t' || byte == b'\n' || byte == b'\r'
}

fn is_letter(byte: u8) -> bool
    ensures { result ≡ is_letter byte }
{
    b'a' <= byte && byte <= b'z' || b'A' <= byte && byte <= b'Z' || byte == b'_'
}

fn is_name_byte(byte: u8) -> bool
    ensures { result ≡ is_name_byte byte }
{
    is_letter(byte) || is_digit(byte)
}

fn is_sign(byte: u8) -> bool
    ensures { result ≡ is_sign byte }
{
    b"{}():;,.=+-*&|^".contains(&byte)
}

/// How many bytes at the front can go on a name.
fn word_len(text: &[u8]) -> usize
    ensures { result ≡ length (take_while is_name_byte text.now) }
{
    text.iter().take_while(|byte| is_name_byte(**byte)).count()
}

/// How many bytes stand before the line feed, or before the end.
fn line_len(text: &[u8]) -> usize
    ensures { result ≡ length (take_while (λ byte. not (byte == 10)) text.now) }
{
    text.iter().take_while(|byte| **byte != b'\n').count()
}

/// A number of `len` bytes.
fn number_item(value: Option<u128>, len: usize) -> Item
    ensures { (number : ℕ) → SomeIff value (number ≤ 2 ^ 128 - 1) number → result ≡ number_item number len }
{
    match value {
        Some(value) => Item::Token(TokenKind::Number(value), len),
        None => Item::Fault(2),
    }
}

/// The number that begins with `0x`.
fn hex_item(text: &[u8]) -> Item
    requires { 2 ≤ length text.now }
    ensures { result ≡ hex_item (take_while is_hex (drop 2 text.now)) }
{
    let behind = &text[2..];
    let len = hex_len(behind);
    if len == 0 {
        Item::Fault(2)
    } else {
        number_item(number_up_to(u128::MAX, 16, &behind[..len]), 2 + len)
    }
}

/// The decimal number that begins the text.
fn decimal_item(text: &[u8]) -> Item
    ensures { result ≡ number_item (number_of_digits 10 (take_while is_digit text.now)) (length (take_while is_digit text.now)) }
{
    let len = digits_len(text);
    number_item(number_up_to(u128::MAX, 10, &text[..len]), len)
}

/// The name or reserved word that begins the text.
fn word_item(alloc: Global, text: &[u8]) -> Result<Item, AllocError>
    ensures { IfOk result (λ it. it ≡ item.Token (Word (take_while is_name_byte text.now)) (length (take_while is_name_byte text.now))) }
{
    let len = word_len(text);
    let bytes = Vec::from_slice(alloc, &text[..len])?;
    Ok(Item::Token(TokenKind::Word(Name::from_vec(bytes)), len))
}

/// What begins a text that is not empty.
pub fn item_of(alloc: Global, text: &[u8]) -> Result<Item, AllocError>
    requires { 0 < length text.now }
    ensures { IfOk result (λ item. item ≡ item_of text.now) }
{
    let first = text[0];
    let second = if text.len() > 1 { text[1] } else { 0 };
    if is_space(first) {
        Ok(Item::Gap(1))
    } else if first == b'/' && second == b'/' {
        Ok(Item::Gap(line_len(text)))
    } else if is_letter(first) {
        word_item(alloc, text)
    } else if is_hex_number(text) {
        Ok(hex_item(text))
    } else if is_digit(first) {
        Ok(decimal_item(text))
    } else if first == b'=' && second == b'=' {
        Ok(Item::Token(TokenKind::Equal, 2))
    } else if is_sign(first) {
        Ok(Item::Token(TokenKind::Sign(first), 1))
    } else {
        Ok(Item::Fault(1))
    }
}
