// What a program is asked to do.
/// What the words ask for.
#[derive(Clone, Copy, Debug, PartialEq, Eq)]
pub enum Command {
    Run,
    Check,
    /// To serve so many connections, 1 to 1,000,000, on the port, 1 to 65,535.
    Serve { port: u16, requests: u32 },
    /// To carry out a source with so many requests, 1 to 1,000, drawn from a seed of at most 2,147,483,647.
    Gen { seed: u32, requests: u32 },
}
