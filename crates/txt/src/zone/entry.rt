//! The entries of zone text, which are cut off it one after the other (RFC 1035, 5.1).

ghost use Rattle.base.specs.texts.TextFaults.{FailsWith};
ghost use Rattle.base.specs.texts.TokenList.{symbols};
ghost use Rattle.std.specs.Prelude.{Err, IfErr, IfOk, None, Some, [], map, ℕ, ◌≡◌};
ghost use Rattle.std.specs.Str.{str_to_ascii_uppercase};
ghost use Rattle.std.specs.String.{string_bytes};
ghost use Rattle.txt.specs.Cutting.{FindsItem, ReadsSymbol, body_value, cut_off, found_first, owner_value, rest_of_body, rest_of_stop, setting_value, settings_value, stop_value, symbol_value};
ghost use Rattle.txt.specs.Entries.{fault_at, first_entry, include_end, items_after, line_after, line_of, no_settings, setting_of, with_setting};

use base::{DNSClass, Lexer, ParseError, TokenRef, parse_ttl};
use std::alloc::{AllocError, Global};

/// What stands next in a text: a token, or what can't be cut into one.
#[derive(Drop)]
pub(super) enum Symbol<'a> {
    /// A token.
    Token(TokenRef<'a>),
    /// What the lexer refuses.
    Broken,
}

impl<'a> Symbol<'a> {
    /// The fault of an entry that this has no place in; `Memory` if memory runs out.
    pub(super) fn fault(&self, alloc: Global) -> ParseError
        ensures { FailsWith {A = ℕ} result (Err (fault_at (symbol_value self.now))) }
    {
        match self {
            Symbol::Token(token) => match token.to_token(alloc) {
                Ok(token) => ParseError::UnexpectedToken(token),
                Err(AllocError) => ParseError::Memory,
            },
            Symbol::Broken => ParseError::Lexer,
        }
    }
}

/// How an entry ends.
#[derive(Drop)]
pub(super) enum Stop<'a> {
    /// As it may: with its line or with the text.
    Whole,
    /// By what has no place in it.
    Refused(Symbol<'a>),
}

/// Whose a line is.
#[derive(Drop)]
pub(super) enum Owner<'a> {
    /// That of the name that this text names.
    Named(&'a str),
    /// That of the origin, by the sign `@`.
    Origin,
    /// That of the last stated owner, by a blank.
    Same,
}

/// What an item states before the type.
#[derive(Drop)]
pub(super) enum Setting {
    /// The TTL of the next record, in seconds.
    Ttl(u32),
    /// The class of the records from here on.
    Class(DNSClass),
}

/// What a line states before its type, each by the last item that states one.
#[derive(Drop)]
pub(super) struct Settings {
    /// The TTL of the next record, in seconds.
    pub(super) ttl: Option<u32>,
    /// The class of the records from here on.
    pub(super) dns_class: Option<DNSClass>,
}

impl Settings {
    /// One more setting.
    fn add(&mut self, setting: Setting)
        ensures { settings_value self.new
            ≡ with_setting (settings_value self.old) (setting_value setting) }
    {
        match setting {
            Setting::Ttl(ttl) => self.ttl = Some(ttl),
            Setting::Class(dns_class) => self.dns_class = Some(dns_class),
        }
    }
}

/// What stands after the settings of a line.
#[derive(Drop)]
pub(super) enum Body<'a> {
    /// Nothing.
    Untyped(Stop<'a>),
    /// The text of a type, in upper case, and the items of the data.
    Typed(String, Vec<&'a str>, Stop<'a>),
}

/// An entry, as far as it stands in the text.
#[derive(Drop)]
pub(super) enum Entry<'a> {
    /// The end of a line, or `$ORIGIN`, `$TTL` or `$INCLUDE` at the end of the text.
    Nothing,
    /// `$ORIGIN` and a name.
    Origin(&'a str),
    /// `$TTL` and a TTL (RFC 2308, 4).
    Ttl(&'a str),
    /// `$INCLUDE` and the name of a text.
    Include(&'a str),
    /// `$INCLUDE`, the name of a text and that of an origin.
    IncludeUnder,
    /// The line of an owner.
    Line(Owner<'a>, Settings, Body<'a>),
    /// An entry other than a line that ends with what has no place in it.
    Faulty(Symbol<'a>),
}

/// The next entry of a text, which it is cut off from; `None` at the end.
///
/// # Errors
///
/// If memory runs out.
#[tactic(auto, unfolding(crate::specs::Entries::first_entry))]
pub(super) fn next_entry<'a>(
    alloc: Global,
    lexer: &mut Lexer<'a>,
) -> Result<Option<Entry<'a>>, AllocError>
    ensures { IfOk result (λ found. first_entry (symbols lexer.old)
        ≡ found_first found (symbols lexer.new)) }
{
    let Some(symbol) = next_symbol(lexer)? else {
        return Ok(None);
    };
    let token = match symbol {
        Symbol::Token(token) => token,
        Symbol::Broken => return Ok(Some(Entry::Faulty(Symbol::Broken))),
    };
    let entry = match token {
        TokenRef::EOL => Entry::Nothing,
        TokenRef::Origin => match cut_item(lexer)? {
            Ok(name) => Entry::Origin(name),
            Err(ended) => ended,
        },
        TokenRef::Ttl => match cut_item(lexer)? {
            Ok(ttl) => Entry::Ttl(ttl),
            Err(ended) => ended,
        },
        TokenRef::Include => match cut_item(lexer)? {
            Ok(name) => cut_include_end(name, lexer)?,
            Err(ended) => ended,
        },
        TokenRef::Blank => cut_line(alloc, Owner::Same, lexer)?,
        TokenRef::At => cut_line(alloc, Owner::Origin, lexer)?,
        TokenRef::CharData(name) => cut_line(alloc, Owner::Named(name), lexer)?,
        TokenRef::List(items) => Entry::Faulty(Symbol::Token(TokenRef::List(items))),
    };
    Ok(Some(entry))
}

/// What stands next in a text; `None` at its end.
///
/// # Errors
///
/// If memory runs out.
pub(super) fn next_symbol<'a>(lexer: &mut Lexer<'a>) -> Result<Option<Symbol<'a>>, AllocError>
    ensures { IfOk result (λ met. ReadsSymbol met (symbols lexer.old) (symbols lexer.new)) }
{
    match lexer.next_ref() {
        Ok(None) => Ok(None),
        Ok(Some(token)) => Ok(Some(Symbol::Token(token))),
        Err(error) => match error {
            ParseError::Memory => Err(AllocError),
            _fault => Ok(Some(Symbol::Broken)),
        },
    }
}

/// The item that an entry needs next, or the entry, where it ends before one.
///
/// # Errors
///
/// If memory runs out.
fn cut_item<'a>(lexer: &mut Lexer<'a>) -> Result<Result<&'a str, Entry<'a>>, AllocError>
    ensures { IfOk result (λ found. FindsItem found (symbols lexer.old) (symbols lexer.new)) }
{
    match next_symbol(lexer)? {
        None => Ok(Err(Entry::Nothing)),
        Some(Symbol::Token(TokenRef::CharData(word))) => Ok(Ok(word)),
        Some(other) => Ok(Err(Entry::Faulty(other))),
    }
}

/// After `$INCLUDE` and the name of a text: the end of the line.
///
/// # Errors
///
/// If memory runs out.
fn cut_include_end<'a>(name: &'a str, lexer: &mut Lexer<'a>) -> Result<Entry<'a>, AllocError>
    ensures { IfOk result (λ e. include_end name.now (symbols lexer.old)
        ≡ cut_off e (symbols lexer.new)) }
{
    match next_symbol(lexer)? {
        None => Ok(Entry::Nothing),
        Some(Symbol::Token(TokenRef::EOL)) => Ok(Entry::Include(name)),
        Some(Symbol::Token(TokenRef::CharData(_origin))) => Ok(Entry::IncludeUnder),
        Some(other) => Ok(Entry::Faulty(other)),
    }
}

/// The line after an owner.
///
/// # Errors
///
/// If memory runs out.
fn cut_line<'a>(
    alloc: Global,
    owner: Owner<'a>,
    lexer: &mut Lexer<'a>,
) -> Result<Entry<'a>, AllocError>
    ensures { IfOk result (λ e.
        line_of (owner_value owner.entry) (line_after (symbols lexer.old) no_settings)
        ≡ cut_off e (symbols lexer.new)) }
{
    let (settings, body) = cut_settings(alloc, lexer)?;
    Ok(Entry::Line(owner, settings, body))
}

/// Settings, and then the end of the line, or a type and the items of its data.
///
/// # Errors
///
/// If memory runs out.
fn cut_settings<'a>(
    alloc: Global,
    lexer: &mut Lexer<'a>,
) -> Result<(Settings, Body<'a>), AllocError>
    ensures { IfOk result (λ line. line_after (symbols lexer.old) no_settings
        ≡ (
          (settings_value line.0, body_value line.1),
          rest_of_body (body_value line.1) (symbols lexer.new),
        )) }
{
    let mut settings = Settings {
        ttl: None,
        dns_class: None,
    };
    'words: loop {
        match next_symbol(lexer)? {
            None => return Ok((settings, Body::Untyped(Stop::Whole))),
            Some(Symbol::Token(TokenRef::EOL)) => {
                return Ok((settings, Body::Untyped(Stop::Whole)));
            }
            Some(Symbol::Token(TokenRef::CharData(word))) => match setting_of(alloc, word)? {
                Ok(setting) => settings.add(setting),
                Err(raised) => {
                    let (items, stop) = cut_items(alloc, lexer)?;
                    return Ok((settings, Body::Typed(raised, items, stop)));
                }
            },
            Some(other) => return Ok((settings, Body::Untyped(Stop::Refused(other)))),
        }
    }
}

/// What an item states before the type: a TTL, else a class, in upper or lower case. Where it is neither, a copy of the
/// item in upper case is answered.
///
/// # Errors
///
/// If memory runs out.
#[tactic(auto, unfolding(crate::specs::Entries::setting_of))]
pub(super) fn setting_of(alloc: Global, word: &str) -> Result<Result<Setting, String>, AllocError>
    ensures setting { IfOk result (λ read. IfOk read (λ setting. setting_of word.now
        ≡ Some (setting_value setting))) }
    ensures none { IfOk result (λ read. IfErr read (λ _. setting_of word.now ≡ None)) }
    ensures raised { IfOk result (λ read. IfErr read (λ raised. string_bytes raised
        ≡ str_to_ascii_uppercase word.now)) }
{
    if let Ok(ttl) = parse_ttl(word) {
        return Ok(Ok(Setting::Ttl(ttl)));
    }
    let mut raised = String::from_str(alloc, word)?;
    raised.make_ascii_uppercase();
    match DNSClass::from_text(raised.as_str()) {
        Some(dns_class) => Ok(Ok(Setting::Class(dns_class))),
        None => Ok(Err(raised)),
    }
}

/// The items of the data, up to the end of the line or of the text, which ends its last line too.
///
/// # Errors
///
/// If memory runs out.
fn cut_items<'a>(
    alloc: Global,
    lexer: &mut Lexer<'a>,
) -> Result<(Vec<&'a str>, Stop<'a>), AllocError>
    ensures { IfOk result (λ found. items_after (symbols lexer.old) []
        ≡ (
          (map (λ item. item.now) found.0.items, stop_value found.1),
          rest_of_stop (stop_value found.1) (symbols lexer.new),
        )) }
{
    let mut items = Vec::new(alloc);
    'items: loop {
        match next_symbol(lexer)? {
            None => return Ok((items, Stop::Whole)),
            Some(Symbol::Token(TokenRef::EOL)) => return Ok((items, Stop::Whole)),
            Some(Symbol::Token(TokenRef::CharData(word))) => items.push(word)?,
            Some(Symbol::Token(TokenRef::List(mut words))) => items.append(&mut words)?,
            Some(other) => return Ok((items, Stop::Refused(other))),
        }
    }
}
