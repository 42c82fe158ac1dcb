//! Why an order isn't carried out.

ghost use Rattle.std.specs.Prelude.{◌≡◌};

use conversation_runs::SinkError;
use relation_files::FileError;
use rota_lines::ReportError;
use rota_moments::RotaError;
use std::alloc::AllocError;

/// Why an order isn't carried out.
#[derive(Drop)]
pub enum Failure {
    /// The words are no order.
    Usage,
    /// The relation file was refused.
    File(FileError),
    /// The file has no relation of the name, or that relation has no column of the name.
    NoColumn,
    /// A step of a rota leads out of the years 1 to 9999.
    OutOfRange,
    /// The total of the steps is no interval.
    TotalOverflow,
    /// A write failed.
    WriteFault,
    /// Memory ran out.
    NoMemory,
}

impl From<AllocError> for Failure {
    ghost use Rattle.std.specs.Prelude.{◌≡◌};
    ghost use Rattle.rota_report.specs.declared.failure.Failure.TheVariants.{NoMemory};

    ghost from_gives = { λ _ f. f ≡ NoMemory };

    fn from(_e: AllocError) -> Failure {
        Failure::NoMemory
    }
}

impl From<FileError> for Failure {
    ghost use Rattle.std.specs.Prelude.{◌≡◌};
    ghost use Rattle.rota_report.specs.declared.failure.Failure.TheVariants.{File};

    ghost from_gives = { λ e f. f ≡ File e };

    fn from(e: FileError) -> Failure {
        Failure::File(e)
    }
}

impl From<RotaError> for Failure {
    ghost use Rattle.std.specs.Prelude.{◌≡◌};
    ghost use Rattle.rota_report.specs.Outcomes.{failure_of_rota};

    ghost from_gives = { λ e f. f ≡ failure_of_rota e };

    fn from(e: RotaError) -> Failure {
        match e {
            RotaError::OutOfRange(_, _) => Failure::OutOfRange,
            RotaError::NoMemory => Failure::NoMemory,
        }
    }
}

impl From<ReportError> for Failure {
    ghost use Rattle.std.specs.Prelude.{◌≡◌};
    ghost use Rattle.rota_report.specs.Outcomes.{failure_of_report};

    ghost from_gives = { λ e f. f ≡ failure_of_report e };

    fn from(e: ReportError) -> Failure {
        match e {
            ReportError::Rota(error) => Failure::from(error),
            ReportError::TotalOverflow(_) => Failure::TotalOverflow,
            ReportError::WriteFault => Failure::WriteFault,
            ReportError::NoMemory => Failure::NoMemory,
        }
    }
}

impl From<SinkError> for Failure {
    ghost use Rattle.std.specs.Prelude.{◌≡◌};
    ghost use Rattle.rota_report.specs.Outcomes.{failure_of_sink};

    ghost from_gives = { λ e f. f ≡ failure_of_sink e };

    fn from(e: SinkError) -> Failure {
        match e {
            SinkError::Failed => Failure::WriteFault,
            SinkError::NoMemory => Failure::NoMemory,
        }
    }
}
