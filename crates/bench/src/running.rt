// The load of byte commands.
use super::states::{tell, whole};
use commands::runs;

#[unsafe(no_mangle)]
pub extern "C" fn bench_bytes(
    first: &mut [u32],
    second: &mut [u32],
    script: &[u8],
    out: &mut [u64],
) {
    let b = whole(0, 0, 0, 0);
    let ran = runs::run(b, first, second, script);
    if let Some(place) = out.get_mut(8) {
        *place = ran.commands as u64;
    }
    tell(ran.reply.buffer, out);
}
