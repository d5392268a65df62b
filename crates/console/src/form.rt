//! The form of a line: by its keyword and the number of its words alone.
ghost use Rattle.std.specs.Prelude.{◌≡◌, ◌≤◌};
ghost use Rattle.console.specs.Forms.{form_of};

/// The form of a command's body, after its sequence and moment.
#[derive(Clone, Copy)]
pub(crate) enum BodyForm {
    /// `rule PREFIX LOW HIGH LIFE KEEP`
    RuleSet,
    /// `unrule PREFIX`
    RuleClear,
    /// `mm ITSI LA PDU`
    Mm,
    /// `sds SOURCE DEST PDU`
    Sds,
    /// `gsds SOURCE GTSI PDU`
    GroupSds,
    /// `sent DEST SOURCE REF KIND`
    Sent,
    /// `expire`
    Expire,
    /// `delete DEST SOURCE REF KIND`
    Delete,
}

/// The form of a query.
#[derive(Clone, Copy)]
pub(crate) enum QueryForm {
    /// `where ITSI`
    Whereabouts,
    /// `look ID`
    Look,
    /// `groups ITSI`
    GroupsOf,
    /// `members GTSI`
    MembersOf,
    /// `mail ITSI`
    Waiting,
    /// `count`
    Total,
}

/// The form of a listing.
#[derive(Clone, Copy)]
pub(crate) enum ListingForm {
    /// `rules`
    Rules,
    /// `radios`
    Radios,
    /// `radios PREFIX`
    RadiosUnder,
    /// `items`
    Items,
    /// `due MOMENT`
    Due,
    /// `waiting STATION`
    WaitingAt,
    /// `last STATION`
    Last,
    /// `room`
    Room,
    /// `dump`
    Dump,
}

/// The form of a line.
#[derive(Clone, Copy)]
pub(crate) enum Form {
    /// `SEQ MOMENT` and a body
    Apply(BodyForm),
    /// A query.
    Ask(QueryForm),
    /// A listing.
    Print(ListingForm),
    /// `mark WORD`
    Mark,
    /// `station`
    OwnStation,
    /// `service`
    Service,
}

/// The form that a line of so many words has by its keyword. The frequent ones come first.
#[inline(always)]
pub(crate) fn form_of(keyword: &[u8], count: usize) -> Option<Form>
    ensures { result ≡ form_of keyword.now count }
{
    match count {
        6 if keyword == b"mm".as_slice() => Some(Form::Apply(BodyForm::Mm)),
        6 if keyword == b"sds".as_slice() => Some(Form::Apply(BodyForm::Sds)),
        6 if keyword == b"gsds".as_slice() => Some(Form::Apply(BodyForm::GroupSds)),
        7 if keyword == b"sent".as_slice() => Some(Form::Apply(BodyForm::Sent)),
        7 if keyword == b"delete".as_slice() => Some(Form::Apply(BodyForm::Delete)),
        3 if keyword == b"expire".as_slice() => Some(Form::Apply(BodyForm::Expire)),
        8 if keyword == b"rule".as_slice() => Some(Form::Apply(BodyForm::RuleSet)),
        4 if keyword == b"unrule".as_slice() => Some(Form::Apply(BodyForm::RuleClear)),
        2 if keyword == b"where".as_slice() => Some(Form::Ask(QueryForm::Whereabouts)),
        2 if keyword == b"look".as_slice() => Some(Form::Ask(QueryForm::Look)),
        2 if keyword == b"groups".as_slice() => Some(Form::Ask(QueryForm::GroupsOf)),
        2 if keyword == b"members".as_slice() => Some(Form::Ask(QueryForm::MembersOf)),
        2 if keyword == b"mail".as_slice() => Some(Form::Ask(QueryForm::Waiting)),
        1 if keyword == b"count".as_slice() => Some(Form::Ask(QueryForm::Total)),
        1 if keyword == b"rules".as_slice() => Some(Form::Print(ListingForm::Rules)),
        1 if keyword == b"radios".as_slice() => Some(Form::Print(ListingForm::Radios)),
        2 if keyword == b"radios".as_slice() => Some(Form::Print(ListingForm::RadiosUnder)),
        1 if keyword == b"items".as_slice() => Some(Form::Print(ListingForm::Items)),
        2 if keyword == b"due".as_slice() => Some(Form::Print(ListingForm::Due)),
        2 if keyword == b"waiting".as_slice() => Some(Form::Print(ListingForm::WaitingAt)),
        2 if keyword == b"last".as_slice() => Some(Form::Print(ListingForm::Last)),
        1 if keyword == b"room".as_slice() => Some(Form::Print(ListingForm::Room)),
        1 if keyword == b"dump".as_slice() => Some(Form::Print(ListingForm::Dump)),
        2 if keyword == b"mark".as_slice() => Some(Form::Mark),
        1 if keyword == b"station".as_slice() => Some(Form::OwnStation),
        1 if keyword == b"service".as_slice() => Some(Form::Service),
        _ => None,
    }
}

/// The most words that a form has.
pub(crate) const MOST_WORDS: usize = 8;

/// The words of a line: the first `count` of the places.
#[derive(Clone, Copy)]
pub(crate) struct Words<'a> {
    pub(crate) places: [&'a [u8]; MOST_WORDS],
    pub(crate) count: usize,
    ghost some: { 1 ≤ count },
    ghost few: { count ≤ 8 },
}
