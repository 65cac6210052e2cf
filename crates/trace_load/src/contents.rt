ghost use Rattle.std.specs.Prelude.{◌≡◌};
ghost use Rattle.model.specs.Load.{puts};
ghost use Rattle.pool.specs.Contents.{meant};
ghost use Rattle.trace.specs.Told.{meant as traced};
ghost use Rattle.trace_load.specs.Takes.{put_told, put_after};

use model::Refusal;
use pool::Pool;
use trace::Trace;

/// Puts the contents of a checked file in order. Where the pool refuses one of them, it is as it was.
pub fn put_contents(pool: &mut Pool, trace: &Trace) -> Result<(), Refusal>
    ensures value { result ≡ put_told (puts (traced trace.now).contents (meant pool.old)) }
    ensures after { meant pool.new ≡ put_after (puts (traced trace.now).contents (meant pool.old)) (meant pool.old) }
{
    let count = pool.count();
    let contents = trace.contents();
    for content in contents {
        // Kept: no `?`, since the pool is cut back before the refusal is told.
        if pool.put(content).is_err() {
            pool.cut(count);
            return Err(Refusal::NoRoomToLoad);
        }
    }
    Ok(())
}
