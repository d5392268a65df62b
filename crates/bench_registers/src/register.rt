// Station 1's lines from standard input, answered over a register at its greatest limits.
use centre_core::Register;
use console::run;
use registration::{Limits, Station};
use std::io;

// The greatest limits of a register.
pub(crate) const LIMITS: Limits = Limits {
    rules: 4096,
    radios: 65_536,
    mail: 65_536,
    stations: 64,
};

// The most calls of the reader.
const TURNS: u32 = 1_073_741_824;

// The exit status: 0; 1 if an answer reported trouble; 5 if the run failed.
pub(crate) fn serve(rt: &HostRuntime) -> u8 {
    let Ok(mut desk) = Register::new(rt.alloc(), LIMITS) else {
        return 5;
    };
    let mut reader = rt.stdin();
    let mut writer = io::writer(rt);
    let station = Station::new(1);
    let ended = run(
        rt.alloc(),
        &mut reader,
        &mut writer,
        station,
        TURNS,
        &mut desk,
    );
    match ended {
        Ok(ran) => u8::from(ran.troubled),
        Err(_) => 5,
    }
}
