//! The commands.

/// A command, with the names of its files. A budget says how many predicates `synth` may add.
#[derive(Clone, Copy)]
pub enum Command<'a> {
    Run {
        spec: &'a str,
        driver: &'a str,
        choices: &'a str,
    },
    Synthesise {
        spec: &'a str,
        out: &'a str,
        budget: Option<u32>,
    },
    CheckDriver {
        spec: &'a str,
        driver: &'a str,
        cert: &'a str,
    },
    CheckEnvironment {
        spec: &'a str,
        cert: &'a str,
    },
    Generate {
        registers: u32,
        out: &'a str,
    },
    Migrate {
        spec: &'a str,
        cert: &'a str,
        out: &'a str,
    },
    Structure {
        spec: &'a str,
        driver: &'a str,
        out: &'a str,
    },
    Unstructure {
        spec: &'a str,
        structured: &'a str,
        out: &'a str,
    },
}
