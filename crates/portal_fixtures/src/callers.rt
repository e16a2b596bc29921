//! Defines the codes of the callers in the scripts.

pub const OFFICE: &str = "office-code-0";

pub const LEE: &str = "lee-code-01";

pub const MOE: &str = "moe-code-02";

const POE: &str = "poe-code-03";

pub const ANN: &str = "ann-code-1";

const BEA: &str = "bea-code-2";

pub const CYR: &str = "cyr-code-3";

/// Returns the code of the caller with this name. Any other word is itself the code.
pub(crate) fn code_of(name: &str) -> &str {
    match name {
        "office" => OFFICE,
        "lee" => LEE,
        "moe" => MOE,
        "poe" => POE,
        "ann" => ANN,
        "bea" => BEA,
        "cyr" => CYR,
        "nobody" => "nobody-here",
        code => code,
    }
}
