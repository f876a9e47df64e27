//! The names of commands, which the first fields of records spell.

ghost use Rattle.std.specs.Prelude.{◌≡◌, ◌≢◌, IfNone, IfSome};
ghost use Rattle.line_scripts.specs.declared.names.Name.{Name};
ghost use Rattle.line_scripts.specs.Names.{name_text};

/// The name of a command.
#[derive(Clone, Copy)]
pub(crate) enum Name {
    Send,
    Deliver,
    Check,
    Begin,
    Turn,
    Damage,
    Bar,
    Recover,
    Rounds,
    History,
    Bundle,
    Plan,
    Live,
    Answer,
    Forget,
    Save,
}

/// The name that a field spells, if it spells one. It is put into its caller, where each name then
/// leads to its command at once.
#[inline(always)]
pub(crate) fn name_in(field: &[u8]) -> Option<Name>
    ensures found { IfSome result (λ name. field.now ≡ name_text name) }
    ensures none { IfNone result ((name : Name) → field.now ≢ name_text name) }
{
    match field {
        b"send" => Some(Name::Send),
        b"deliver" => Some(Name::Deliver),
        b"check" => Some(Name::Check),
        b"begin" => Some(Name::Begin),
        b"turn" => Some(Name::Turn),
        b"damage" => Some(Name::Damage),
        b"bar" => Some(Name::Bar),
        b"recover" => Some(Name::Recover),
        b"rounds" => Some(Name::Rounds),
        b"history" => Some(Name::History),
        b"bundle" => Some(Name::Bundle),
        b"plan" => Some(Name::Plan),
        b"live" => Some(Name::Live),
        b"answer" => Some(Name::Answer),
        b"forget" => Some(Name::Forget),
        b"save" => Some(Name::Save),
        _ => None,
    }
}
