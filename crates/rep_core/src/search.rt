ghost use Rattle.std.specs.Prelude.{◌≡◌};
ghost use Rattle.rep_core.specs.History.{worker_in};
ghost use Rattle.rep_core.specs.Lookup.{is_employer};

use crate::verdict::WorkerState;
use afd_records::Body;
use rep_fields::Cpf;

/// Whether the record is an employer's.
pub fn is_employer(body: &Body) -> bool
    ensures { result ≡ is_employer body.now }
{
    match body {
        Body::Employer { .. } => true,
        Body::Adjust { .. } | Body::Worker { .. } | Body::Event { .. } | Body::Clocking { .. } =>
            false,
    }
}

/// What the record says of the worker.
pub fn worker_in(cpf: Cpf, body: &Body) -> Option<WorkerState>
    ensures { result ≡ worker_in cpf body.now }
{
    match body {
        Body::Worker {
            at,
            op,
            cpf: worker,
            ..
        } => {
            if *worker == cpf {
                Some(WorkerState { op: *op, at: *at })
            } else {
                None
            }
        }
        Body::Employer { .. } | Body::Adjust { .. } | Body::Event { .. } | Body::Clocking { .. } =>
            None,
    }
}
