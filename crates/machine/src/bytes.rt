// The four numbers of a setup and the six of a process as bytes, in the order of their fields, and back.
ghost use Rattle.std.specs.Prelude.{◌≡◌};
ghost use Rattle.machine.specs.Bytes.{numbers_bytes, process_bytes};

use crate::{Numbers, Process};

impl From<[u8; 4]> for Numbers {
    ghost from_gives = { λ bytes n. bytes ≡ numbers_bytes n };

    fn from([processes, leaves, segments, bits]: [u8; 4]) -> Numbers {
        Numbers {
            processes,
            leaves,
            segments,
            bits,
        }
    }
}

impl From<Numbers> for [u8; 4] {
    ghost from_gives = { λ n bytes. bytes ≡ numbers_bytes n };

    fn from(n: Numbers) -> [u8; 4] {
        [n.processes, n.leaves, n.segments, n.bits]
    }
}

impl From<[u8; 6]> for Process {
    ghost from_gives = { λ bytes h. bytes ≡ process_bytes h };

    fn from([stage, node, segment, name, steps, returns]: [u8; 6]) -> Process {
        Process {
            stage,
            node,
            segment,
            name,
            steps,
            returns,
        }
    }
}

impl From<Process> for [u8; 6] {
    ghost from_gives = { λ h bytes. bytes ≡ process_bytes h };

    fn from(h: Process) -> [u8; 6] {
        [h.stage, h.node, h.segment, h.name, h.steps, h.returns]
    }
}
