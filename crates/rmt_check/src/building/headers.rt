//! Headers.

ghost use Rattle.std.specs.Prelude.{◌≡◌, ◌≤◌, ◌<◌, ◌+◌, ◌^◌, IfOk, map, option_map, zip};
ghost use Rattle.std.specs.List.{range_with_len};
ghost use Rattle.rmt_check.specs.Parts.{Ident, ValueText};
ghost use Rattle.rmt_check.specs.Names.{selected, width_of};
ghost use Rattle.rmt_check.specs.Rules as rules;
ghost use Rattle.rmt_check.specs.Meaning.{case_of, field_number, header_from, headers_from, tail_of, test_of};
ghost use Rattle.rmt_check.specs.Sizes.{IsSized, IsSizedHeader, IsSizedTail};

use crate::building::known::{number_at, target_of};
use crate::building::mapped::{Build, add, mapped};
use crate::building::values::test_at;
use crate::names::lookup::{InHeader, Lookup, own_key};
use crate::pairs::both;
use crate::reading::words::copy_name;
use crate::rules::sums::sum_up_to;
use crate::source::{CaseText, HeaderText, Ident, TailText, ValueText};
use rmt_ast::program::{Case, Header, Tail, Test};
use rmt_bits::sequence::Sequence;
use std::alloc::{AllocError, Global};

/// The bits of a header's fields, of which there are at most 512.
fn bits_of(header: &HeaderText) -> u128
    requires { rules.bits_of header.now ≤ 512 }
    ensures { result ≡ rules.bits_of header.now }
{
    sum_up_to(512, &(), header.fields.as_slice())
}

/// So many numbers, one after another.
fn numbers_from(alloc: Global, first: u32, count: u32) -> Result<Vec<u32>, AllocError>
    requires { first + count < 2 ^ 32 }
    ensures { IfOk result (λ numbers. numbers.items ≡ range_with_len first count) }
{
    (first..first + count).collect(alloc)
}

/// The tests of values for the fields of a header's select, as far as both go.
fn tests_of<N: Lookup>(
    alloc: Global,
    names: &N,
    header: &HeaderText,
    values: &[ValueText],
) -> Result<Vec<Test>, AllocError>
    requires { IsSized (N.text names.now) }
    ensures { IfOk result (λ tests. tests.items
        ≡ map (λ (x : Ident × ValueText). test_of (width_of (N.text names.now) (selected (N.text names.now) header.now x.0)) x.1) (zip header.now.select values.now)) }
{
    let select = header.select.as_slice();
    let mut tests = Vec::new(alloc);
    for number in 0..select.len().min(values.len()) {
        let key = own_key(names, header, &select[number]);
        tests.push(test_at(names, key, &values[number]))?;
    }
    Ok(tests)
}

/// The number of a field that a header selects by.
impl<'a, N: Lookup> Build<InHeader<'a, N>, Ident> for u32 {
    ghost fits = { λ own ident. IsSized (N.text own.0.now) };

    ghost meant = { λ own ident. field_number (N.text own.0.now) (selected (N.text own.0.now) own.1.now ident) };

    fn build(_alloc: Global, own: &InHeader<'a, N>, ident: &Ident) -> Result<u32, AllocError> {
        Ok(number_at(own.0, own_key(own.0, own.1, ident)))
    }
}

/// A case of a header.
impl<'a, N: Lookup> Build<InHeader<'a, N>, CaseText> for Case {
    ghost fits = { λ own case. IsSized (N.text own.0.now) };

    ghost meant = { λ own case. case_of (N.text own.0.now) own.1.now case };

    fn build(alloc: Global, own: &InHeader<'a, N>, case: &CaseText) -> Result<Case, AllocError> {
        Ok(Case {
            tests: Sequence::from_vec(tests_of(alloc, own.0, own.1, case.values.as_slice())?),
            target: target_of(own.0, &case.target),
        })
    }
}

/// The tail of a header whose text is within the bounds of the rules.
fn tail_of<N: Lookup>(names: &N, header: &HeaderText, tail: &TailText) -> Tail
    requires sized { IsSized (N.text names.now) }
    requires tail { IsSizedTail tail.now }
    ensures { result ≡ tail_of (N.text names.now) header.now tail.now }
{
    Tail {
        field: number_at(names, own_key(names, header, &tail.field)),
        unit: tail.unit.value as u8,
        base: tail.base.value as u8,
    }
}

/// The tail of a header, if it has one.
fn tail_in<N: Lookup>(names: &N, header: &HeaderText) -> Option<Tail>
    requires sized { IsSized (N.text names.now) }
    requires header { IsSizedHeader header.now }
    ensures { result ≡ option_map (tail_of (N.text names.now) header.now) header.now.tail }
{
    match &header.tail {
        Some(tail) => Some(tail_of(names, header, tail)),
        None => None,
    }
}

/// A header whose valid has the number `valid`.
fn header_from<N: Lookup>(
    alloc: Global,
    names: &N,
    valid: u32,
    header: &HeaderText,
) -> Result<Header, AllocError>
    requires sized { IsSized (N.text names.now) }
    requires header { IsSizedHeader header.now }
    requires valid { valid < 2 ^ 16 }
    ensures { IfOk result (λ built. built ≡ header_from (N.text names.now) valid header.now) }
{
    let count = header.fields.len() as u32;
    let own = (names, header);
    let ((name, fields), (select, cases)) = both(
        both(
            copy_name(alloc, &header.ident.name),
            numbers_from(alloc, valid + 1, count),
        ),
        both(
            mapped(alloc, &own, header.select.as_slice()),
            mapped(alloc, &own, header.cases.as_slice()),
        ),
    )?;
    Ok(Header {
        name,
        valid,
        fields: Sequence::from_vec(fields),
        bytes: (bits_of(header) / 8) as u8,
        tail: tail_in(names, header),
        select,
        cases,
        other: target_of(names, &header.other),
    })
}

/// The headers of a text.
pub fn headers_of<N: Lookup>(alloc: Global, names: &N) -> Result<Sequence<Header>, AllocError>
    requires { IsSized (N.text names.now) }
    ensures { IfOk result (λ headers. headers ≡ headers_from (N.text names.now) 3 (N.text names.now).headers) }
{
    let mut headers = Sequence::new(alloc);
    let mut valid: u32 = 3;
    for header in names.source().headers.as_slice() {
        add(&mut headers, header_from(alloc, names, valid, header))?;
        valid += 1 + header.fields.len() as u32;
    }
    Ok(headers)
}
