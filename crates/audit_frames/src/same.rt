ghost use Rattle.std.specs.Prelude.{◌≡◌};
ghost use Rattle.audit_frames.specs.Same as spec;

use mcal_base::{DevError, ErrorName, Notice, NoticeKind, Service};

fn kind_number(kind: NoticeKind) -> u8
    ensures { result ≡ spec.kind_number kind }
{
    kind as u8
}

fn error_number(error: ErrorName) -> u8
    ensures { result ≡ spec.error_number error }
{
    error as u8
}

fn service_number(service: Service) -> u8
    ensures { result ≡ spec.service_number service }
{
    service as u8
}

/// Whether two notices are the same one.
pub(crate) fn same_notice(a: &Notice, b: &Notice) -> bool
    ensures { result ≡ spec.same_notice a.now b.now }
{
    kind_number(a.kind) == kind_number(b.kind) && a.id == b.id
}

/// Whether two reports are the same one.
pub(crate) fn same_report(a: &DevError, b: &DevError) -> bool
    ensures { result ≡ spec.same_report a.now b.now }
{
    let runtime = if a.runtime { b.runtime } else { !b.runtime };
    service_number(a.service) == service_number(b.service)
        && error_number(a.error) == error_number(b.error)
        && runtime
}
