//! The declarations of an abbreviation table.

ghost use Rattle.std.specs.Prelude.{◌≡◌, ◌≤◌, ◌*◌, ◌==◌, ℕ, List, ◌∷◌, ◌++◌, length, Some, option_map, is_some, IfOk, IfErr, IfSome, IfNone, OnOk};
ghost use Rattle.std.specs.Option.{option_to_list};
ghost use Rattle.gimli_core_readers.specs.Calls.{Reads, ReturnsAs, ReturnsAsOrNoMemory};
ghost use Rattle.gimli_core_readers.specs.NumberParsers.{unsigned};
ghost use Rattle.gimli_core_readers.specs.Parsers.{map_value};
ghost use Rattle.gimli_core_readers.specs.Repetition.{prepend, listing_in};
ghost use Rattle.gimli_core_readers.specs.View.{View, bytes_left, after};
ghost use Rattle.gimli_core_abbrev.specs.TableParsing.{implicit_const_form, implicit_const, attribute, IsShortAttribute, attributes, children, declaration_of, declaration};
ghost use Rattle.gimli_core_readers.specs.Error.TheVariants.{Memory};
ghost use Rattle.gimli_core_abbrev.specs.AbbreviationViews.{attribute_view, added_view, Extends, with_attributes, nothing};
ghost use Rattle.gimli_core_abbrev.specs.DeclarationFacts.{FitsInBytes, KnowsAttributes, KnowsMore};
ghost use Rattle.gimli_core_abbrev.specs.FormWidths.{width_of};

use crate::declaration::{CodedHead, Head};
use crate::facts::AttributeFacts;
use gimli_core_readers::{
    DW_CHILDREN_no, DW_CHILDREN_yes, DW_FORM_GNU_ref_alt, DW_FORM_GNU_strp_alt, DW_FORM_addr,
    DW_FORM_addrx1, DW_FORM_addrx2, DW_FORM_addrx3, DW_FORM_addrx4, DW_FORM_data1, DW_FORM_data2,
    DW_FORM_data4, DW_FORM_data8, DW_FORM_data16, DW_FORM_flag, DW_FORM_flag_present,
    DW_FORM_implicit_const, DW_FORM_line_strp, DW_FORM_ref_addr, DW_FORM_ref_sig8,
    DW_FORM_ref_sup4, DW_FORM_ref_sup8, DW_FORM_ref1, DW_FORM_ref2, DW_FORM_ref4, DW_FORM_ref8,
    DW_FORM_sec_offset, DW_FORM_strp, DW_FORM_strp_sup, DW_FORM_strx1, DW_FORM_strx2,
    DW_FORM_strx3, DW_FORM_strx4, DwAt, DwChildren, DwForm, DwTag, Encoding, EndianSlice,
    Endianity, Error, Reader,
};
use std::mem::{self, size_of};

const _: () = prove!(size_of::<AttributeSpecification>() == 12);

/// The name and the form of an attribute in a declaration, in 12 bytes.
#[derive(Clone, Copy, Debug)]
pub struct AttributeSpecification {
    name: DwAt,
    form: DwForm,
    // The value of the form `DW_FORM_implicit_const`, little end first.
    constant: [u8; 8],
}

/// Compares names and forms, and values where the form is `DW_FORM_implicit_const`.
impl PartialEq for AttributeSpecification {
    ghost use Rattle.gimli_core_abbrev.specs.DeclarationEquality.{is_same_specification, same_specification_laws};
    ghost use Rattle.std.specs.Cmp.{partial_equiv_from_equiv};

    ghost eq = { is_same_specification };

    ghost laws = { partial_equiv_from_equiv same_specification_laws };

    fn eq(&self, other: &Self) -> bool {
        self.name == other.name
            && (self.form == other.form
                && self.implicit_const_value() == other.implicit_const_value())
    }
}

impl Eq for AttributeSpecification {
    ghost use Rattle.gimli_core_abbrev.specs.DeclarationEquality.{same_specification_laws};

    ghost laws = { same_specification_laws };
}

impl AttributeSpecification {
    /// An attribute, which has a value exactly if its form is `DW_FORM_implicit_const`.
    pub fn new(name: DwAt, form: DwForm, implicit_const_value: Option<i64>) -> Self
        requires { is_some implicit_const_value ≡ (form.0 == implicit_const_form) }
        ensures { attribute_view result
            ≡ record { name = name.0; form = form.0; implicit_const = implicit_const_value } }
    {
        AttributeSpecification {
            name,
            form,
            constant: implicit_const_value.unwrap_or(0).to_le_bytes(),
        }
    }

    /// The attribute's name.
    pub fn name(&self) -> DwAt
        ensures { result.0 ≡ (attribute_view self.now).name }
    {
        self.name
    }

    /// The form of its values.
    pub fn form(&self) -> DwForm
        ensures { result.0 ≡ (attribute_view self.now).form }
    {
        self.form
    }

    /// The value that the declaration itself holds (DWARF 5, 7.5.3).
    pub fn implicit_const_value(&self) -> Option<i64>
        ensures { result ≡ (attribute_view self.now).implicit_const }
    {
        if self.form == DW_FORM_implicit_const {
            Some(i64::from_le_bytes(self.constant))
        } else {
            None
        }
    }
}

impl AttributeSpecification {
    /// The size of the attribute's value in bytes, where the form alone determines it (DWARF 5,
    /// 7.5.6).
    pub fn size(&self, encoding: Encoding) -> Option<usize>
        ensures { result ≡ width_of encoding (attribute_view self.now).form }
    {
        match self.form {
            DW_FORM_addr => Some(encoding.address_size as usize),
            DW_FORM_ref_addr if encoding.version == 2 => Some(encoding.address_size as usize),
            DW_FORM_ref_addr
            | DW_FORM_strp
            | DW_FORM_sec_offset
            | DW_FORM_strp_sup
            | DW_FORM_line_strp
            | DW_FORM_GNU_ref_alt
            | DW_FORM_GNU_strp_alt => Some(encoding.format.word_size() as usize),
            DW_FORM_flag_present | DW_FORM_implicit_const => Some(0),
            DW_FORM_data1 | DW_FORM_flag | DW_FORM_ref1 | DW_FORM_strx1 | DW_FORM_addrx1 => Some(1),
            DW_FORM_data2 | DW_FORM_ref2 | DW_FORM_strx2 | DW_FORM_addrx2 => Some(2),
            DW_FORM_strx3 | DW_FORM_addrx3 => Some(3),
            DW_FORM_data4 | DW_FORM_ref4 | DW_FORM_ref_sup4 | DW_FORM_strx4 | DW_FORM_addrx4 => {
                Some(4)
            }
            DW_FORM_data8 | DW_FORM_ref8 | DW_FORM_ref_sig8 | DW_FORM_ref_sup8 => Some(8),
            DW_FORM_data16 => Some(16),
            _ => None,
        }
    }
}

// ---- reading

// Reads the value that a declaration itself holds, after an attribute's form.
#[tactic(auto, unfolding(crate::specs::TableParsing::implicit_const))]
fn parse_implicit_const<R: Reader>(input: &mut R, form: DwForm) -> Result<Option<i64>, Error>
    ensures { Reads result (R.view input.old) (R.view input.new)
        (implicit_const form.0 (R.view input.old)) }
{
    if form == DW_FORM_implicit_const {
        Ok(Some(input.read_sleb128()?))
    } else {
        Ok(None)
    }
}

// Reads an attribute, or none at the pair of zeros that ends them. Its numbers may have any size.
#[inline(never)]
#[tactic(auto, unfolding(crate::specs::TableParsing::attribute, crate::specs::TableParsing::attribute_of))]
fn parse_long_attribute<R: Reader>(input: &mut R) -> Result<Option<AttributeSpecification>, Error>
    ensures { ReturnsAs (λ a. (option_map attribute_view a, R.view input.new)) result
        (attribute (R.view input.old)) }
{
    let name = DwAt(input.read_uleb128_u16()?);
    let form = DwForm(input.read_uleb128_u16()?);
    match (name.0, form.0) {
        (0, 0) => return Ok(None),
        (0, _) => return Err(Error::AttributeNameZero),
        (_, 0) => return Err(Error::AttributeFormZero),
        _ => {}
    }
    let implicit_const_value = parse_implicit_const(input, form)?;
    Ok(Some(AttributeSpecification::new(name, form, implicit_const_value)))
}

// The attribute whose name and form are these bytes, if each is a number by itself and no value
// follows them. Nothing at a pair of zeros.
#[inline(always)]
fn attribute_of_bytes(name: u8, form: u8) -> Option<AttributeSpecification>
    ensures { IfSome result (λ a. (rest : List ℕ)
        → IsShortAttribute (name ∷ form ∷ rest) (Some (attribute_view a))) }
{
    if name == 0 || name >= 128 || form == 0 || form >= 128 {
        return None;
    }
    let (name, form) = (u16::from(name), u16::from(form));
    if form == DW_FORM_implicit_const.0 {
        return None;
    }
    Some(AttributeSpecification::new(DwAt(name), DwForm(form), None))
}

// The attribute in the first two bytes, or none at a pair of zeros. Nothing where it takes more
// bytes, and where reading it is refused.
#[inline(always)]
fn short_attribute(bytes: &[u8]) -> Option<Option<AttributeSpecification>>
    ensures { IfSome result (λ a. IsShortAttribute bytes.now (option_map attribute_view a)) }
{
    let [name, form, ..] = bytes else {
        return None;
    };
    if *name == 0 && *form == 0 {
        return Some(None);
    }
    let attribute = attribute_of_bytes(*name, *form)?;
    Some(Some(attribute))
}

// Reads an attribute, or none at the pair of zeros that ends them.
#[inline(always)]
fn parse_attribute<R: Reader>(input: &mut R) -> Result<Option<AttributeSpecification>, Error>
    ensures { ReturnsAs (λ a. (option_map attribute_view a, R.view input.new)) result
        (attribute (R.view input.old)) }
{
    if let Some(attribute) = short_attribute(input.as_bytes()) {
        input.advance(2);
        return Ok(attribute);
    }
    parse_long_attribute(input)
}

// Appends an attribute to a list, if there is one.
#[inline(always)]
fn push(
    attribute: Option<AttributeSpecification>,
    found: &mut Vec<AttributeSpecification>,
) -> Result<Option<AttributeSpecification>, Error>
    ensures value { IfOk result (λ a. a ≡ attribute) }
    ensures items { IfOk result (λ a. found.new.items
        ≡ found.old.items ++ option_to_list a) }
    ensures err { IfErr result (λ e. e ≡ Memory) }
{
    if let Some(attribute) = attribute {
        found.push(attribute)?;
    }
    Ok(attribute)
}

// Appends the attributes of two bytes each that come first, as many as there is room for, takes
// them into the facts, and returns how many.
#[inline(always)]
fn push_short_run(
    bytes: &[u8],
    found: &mut Vec<AttributeSpecification>,
    facts: &mut AttributeFacts,
) -> usize
    requires { FitsInBytes facts.now }
    ensures extends { Extends found.old.items found.new.items }
    ensures within { 2 * result ≤ length bytes.now }
    ensures run { (v : View) → v.bytes ≡ bytes.now → listing_in bytes_left attribute v
        ≡ prepend (added_view found.old.items found.new.items)
        (listing_in bytes_left attribute (after (2 * result) v)) }
    ensures knows { KnowsMore facts.old facts.new (added_view found.old.items found.new.items) }
{
    let alloc = *found.allocator();
    // in variables, so that the list's length and the facts stay in registers
    let mut list = mem::replace(found, Vec::new(alloc));
    let mut known = *facts;
    let most = (list.capacity() - list.len()).min(bytes.len() / 2);
    let mut count = 0;
    'pushing: while count < most {
        let Some(attribute) = attribute_of_bytes(bytes[2 * count], bytes[2 * count + 1]) else {
            break;
        };
        list.push_reserved(attribute);
        known = known.with(attribute);
        count += 1;
    }
    *facts = known;
    *found = list;
    count
}

// Reads an attribute from borrowed bytes, and appends it to a list. None at the pair of zeros that
// ends them.
#[inline(never)]
fn push_long<E: Endianity>(
    place: &mut EndianSlice<'_, E>,
    found: &mut Vec<AttributeSpecification>,
) -> Result<Option<AttributeSpecification>, Error>
    ensures value { ReturnsAsOrNoMemory (λ a. (option_map attribute_view a, place.new)) result
        (attribute place.old) }
    ensures items { IfOk result (λ a. found.new.items
        ≡ found.old.items ++ option_to_list a) }
{
    let attribute = parse_long_attribute(place)?;
    Ok(push(attribute, found)?)
}

// The same, and the pair of zeros is found without a call.
#[inline(always)]
fn push_next<E: Endianity>(
    place: &mut EndianSlice<'_, E>,
    found: &mut Vec<AttributeSpecification>,
) -> Result<Option<AttributeSpecification>, Error>
    ensures value { ReturnsAsOrNoMemory (λ a. (option_map attribute_view a, place.new)) result
        (attribute place.old) }
    ensures items { IfOk result (λ a. found.new.items
        ≡ found.old.items ++ option_to_list a) }
{
    if let Some(None) = short_attribute(place.slice()) {
        place.advance(2);
        return Ok(None);
    }
    // by a copy, so that the place stays in registers
    let mut rest = place.range_from(0..);
    let attribute = push_long(&mut rest, found)?;
    *place = rest;
    Ok(attribute)
}

// Reads the attributes of a declaration, appends them to a list, and takes them into the facts.
#[inline(always)]
#[tactic(auto, unfolding(crate::specs::TableParsing::attributes))]
fn parse_attributes<E: Endianity>(
    input: &mut EndianSlice<'_, E>,
    found: &mut Vec<AttributeSpecification>,
    facts: &mut AttributeFacts,
) -> Result<(), Error>
    requires { FitsInBytes facts.now }
    ensures value { ReturnsAsOrNoMemory
        (λ _. (added_view found.old.items found.new.items, input.new)) result
        (attributes input.old) }
    ensures extends { OnOk result (Extends found.old.items found.new.items) }
    ensures knows { OnOk result
        (KnowsMore facts.old facts.new (added_view found.old.items found.new.items)) }
{
    'pushing: loop {
        let count = push_short_run(input.slice(), found, facts);
        input.advance(2 * count);
        match push_next(input, found)? {
            Some(attribute) => *facts = facts.with(attribute),
            None => return Ok(()),
        }
    }
}

// How many attributes of two bytes each come first.
#[inline(always)]
fn short_run(bytes: &[u8]) -> usize
    ensures within { 2 * result ≤ length bytes.now }
    ensures run { (v : View) → v.bytes ≡ bytes.now
        → (listing_in bytes_left attribute (after (2 * result) v)).ending
        ≡ (listing_in bytes_left attribute v).ending }
{
    let pairs = bytes.len() / 2;
    let mut run = 0;
    'counting: while run < pairs {
        let Some(_attribute) = attribute_of_bytes(bytes[2 * run], bytes[2 * run + 1]) else {
            break;
        };
        run += 1;
    }
    run
}

// Skips the attributes of a declaration.
#[tactic(auto, unfolding(crate::specs::TableParsing::attributes))]
fn skip_attributes<R: Reader>(input: &mut R) -> Result<(), Error>
    ensures { ReturnsAs (λ x. (x, R.view input.new)) result
        (map_value nothing attributes (R.view input.old)) }
{
    'skipping: loop {
        let run = short_run(input.as_bytes());
        input.advance(2 * run);
        if parse_attribute(input)?.is_none() {
            return Ok(());
        }
    }
}

// Reads whether children follow.
#[tactic(auto, unfolding(crate::specs::TableParsing::children))]
fn parse_children<R: Reader>(input: &mut R) -> Result<bool, Error>
    ensures { ReturnsAs (λ b. (b, R.view input.new)) result (children (R.view input.old)) }
{
    match DwChildren(input.read_u8()?) {
        DW_CHILDREN_no => Ok(false),
        DW_CHILDREN_yes => Ok(true),
        other => Err(Error::InvalidAbbreviationChildren(other.0)),
    }
}

// Reads a code: one byte in nearly all declarations.
#[inline(always)]
fn parse_code<R: Reader>(input: &mut R) -> Result<u64, Error>
    ensures { Reads result (R.view input.old) (R.view input.new) (unsigned (R.view input.old)) }
{
    match input.as_bytes() {
        [code, ..] if *code < 128 => {
            let code = u64::from(*code);
            input.advance(1);
            Ok(code)
        }
        _ => input.read_uleb128(),
    }
}

// Reads what follows a code. The attributes are appended to a list.
#[inline(always)]
#[tactic(auto, unfolding(crate::specs::TableParsing::declaration_of))]
fn parse_after_code<E: Endianity>(
    input: &mut EndianSlice<'_, E>,
    code: u64,
    attributes: &mut Vec<AttributeSpecification>,
) -> Result<CodedHead, Error>
    ensures value { ReturnsAsOrNoMemory
        (λ d. (with_attributes (added_view attributes.old.items attributes.new.items) d, input.new))
        result (declaration_of code input.old) }
    ensures extends { OnOk result (Extends attributes.old.items attributes.new.items) }
    ensures knows { IfOk result (λ d. KnowsAttributes d.head
        (added_view attributes.old.items attributes.new.items)) }
{
    let tag = DwTag(input.read_uleb128_u16()?);
    if tag.0 == 0 {
        return Err(Error::AbbreviationTagZero);
    }
    let has_children = parse_children(input)?;
    let mut facts = AttributeFacts::none();
    parse_attributes(input, attributes, &mut facts)?;
    let head = Head::new(tag, has_children, facts);
    Ok(CodedHead { code, head })
}

// Reads a declaration, or none where the table ends: at the code 0 and at the end of the bytes. Its
// attributes are appended to a list.
#[inline(always)]
#[tactic(auto, unfolding(crate::specs::TableParsing::declaration, crate::specs::TableParsing::coded_declaration))]
pub(crate) fn parse<E: Endianity>(
    input: &mut EndianSlice<'_, E>,
    attributes: &mut Vec<AttributeSpecification>,
) -> Result<Option<CodedHead>, Error>
    ensures value { ReturnsAsOrNoMemory (λ d. (
      option_map (λ d. with_attributes
          (added_view attributes.old.items attributes.new.items) d) d,
      input.new,
    ))
        result (declaration input.old) }
    ensures extends { IfOk result (λ d. IfSome d
        (λ _. Extends attributes.old.items attributes.new.items)) }
    ensures knows { IfOk result (λ d. IfSome d (λ d. KnowsAttributes d.head
        (added_view attributes.old.items attributes.new.items))) }
    ensures ends { IfOk result (λ d. IfNone d (attributes.new.items ≡ attributes.old.items)) }
{
    if input.is_empty() {
        return Ok(None);
    }
    let code = parse_code(input)?;
    if code == 0 {
        return Ok(None);
    }
    Ok(Some(parse_after_code(input, code, attributes)?))
}

// Skips what follows a code.
#[tactic(auto, unfolding(crate::specs::TableParsing::declaration_of))]
pub(crate) fn skip_after_code<R: Reader>(input: &mut R, code: u64) -> Result<u64, Error>
    ensures { ReturnsAs (λ c. (c, R.view input.new)) result
        (map_value (λ d. d.code) (declaration_of code) (R.view input.old)) }
{
    if input.read_uleb128_u16()? == 0 {
        return Err(Error::AbbreviationTagZero);
    }
    let _has_children = parse_children(input)?;
    skip_attributes(input)?;
    Ok(code)
}

// Skips a declaration, and returns its code; none where the table ends.
#[tactic(auto, unfolding(crate::specs::TableParsing::declaration, crate::specs::TableParsing::coded_declaration))]
pub(crate) fn skip<R: Reader>(input: &mut R) -> Result<Option<u64>, Error>
    ensures { ReturnsAs (λ c. (c, R.view input.new)) result
        (map_value (option_map (λ d. d.code)) declaration (R.view input.old)) }
{
    if input.is_empty() {
        return Ok(None);
    }
    let code = parse_code(input)?;
    if code == 0 {
        return Ok(None);
    }
    Ok(Some(skip_after_code(input, code)?))
}
