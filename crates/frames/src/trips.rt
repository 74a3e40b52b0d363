// The round trips: a call that is written and read back, and a line that is read and written back.
ghost use Rattle.std.specs.Prelude.{◌≡◌, Ok};
ghost use Rattle.frames.specs.Frames.{ComesBack};

use crate::calls::Call;
use crate::faults::FrameFault;

impl Call {
    // Writes the call and reads it back: that call again.
    pub fn read_back(self) -> Result<Call, FrameFault>
        ensures { result ≡ Ok self }
    {
        let mut place = [0; 64];
        let count = self.write(&mut place);
        Call::read(&place[..count])
    }

    // Reads a line and writes the call back: that line again, and the rest of the place stays. A
    // line that is refused leaves all of it.
    pub fn write_back(line: &[u8], place: &mut [u8; 64]) -> Result<usize, FrameFault>
        ensures { ComesBack line.now place.old result place.new }
    {
        let call = Call::read(line)?;
        Ok(call.write(place))
    }
}
