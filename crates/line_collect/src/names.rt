//! The names of reports, which the first fields of records spell.

ghost use Rattle.std.specs.Prelude.{◌≡◌, ◌≢◌, IfNone, IfSome};
ghost use Rattle.line_collect.specs.declared.names.ReportName.{ReportName};
ghost use Rattle.line_collect.specs.Names.{report_name_text};

/// The name of a report.
#[derive(Clone, Copy)]
pub(crate) enum ReportName {
    Send,
    Recv,
    Check,
    Mark,
    Damage,
    Bar,
    Plan,
    Live,
    Recover,
    Forget,
    History,
    Bundle,
}

/// The name that a field spells, if it spells one. It is put into its caller, where each name then
/// leads to its report at once.
#[inline(always)]
pub(crate) fn report_name_in(field: &[u8]) -> Option<ReportName>
    ensures found { IfSome result (λ name. field.now ≡ report_name_text name) }
    ensures none { IfNone result ((name : ReportName) → field.now ≢ report_name_text name) }
{
    match field {
        b"send" => Some(ReportName::Send),
        b"recv" => Some(ReportName::Recv),
        b"check" => Some(ReportName::Check),
        b"mark" => Some(ReportName::Mark),
        b"damage" => Some(ReportName::Damage),
        b"bar" => Some(ReportName::Bar),
        b"plan" => Some(ReportName::Plan),
        b"live" => Some(ReportName::Live),
        b"recover" => Some(ReportName::Recover),
        b"forget" => Some(ReportName::Forget),
        b"history" => Some(ReportName::History),
        b"bundle" => Some(ReportName::Bundle),
        _ => None,
    }
}
