// The run of an export: token after token to the message's end.
ghost use Rattle.std.specs.Prelude.{◌≡◌, false, true, IfOk};
ghost use Rattle.tds_columns.specs.View.{columns_of};
ghost use Rattle.tds_csv.specs.Sinks.{LeavesSink};
ghost use Rattle.tds_export.specs.Steps.{IsRow, in_done, in_done_in_proc, in_kind, in_length, in_metadata, in_nbc_row, in_return, in_row, in_status};
ghost use Rattle.tds_export.specs.TokenGrammar.{AnError, AnInfo, Bodied, is_notice};
ghost use Rattle.tds_export.specs.Exporters.{Advances, CanBegin, IsInToken, IsRunning, LeavesRun};
ghost use Rattle.tds_export.specs.Exporters.{BodyRead, ResponseRead, StepRead, TokenRead, WholeRead, view};
ghost use Rattle.tds_export.specs.Lending.{KeepsRooms, lent};
ghost use Rattle.tds_packet.specs.Payloads.{LeavesPayload};

use crate::header::put_header;
use crate::notice::{error_of, message_of, pass_notice, take_notice};
use crate::progress::Progress;
use crate::report::Report;
use crate::return_value::pass_return;
use crate::tokens::{TokenKind, judge_token, next_byte};
use byteorder::{ByteOrder, LittleEndian};
use std::io::{Read, Write};
use tds_columns::{Columns, Described, gather_next};
use tds_csv::{Sink, utf16_into};
use tds_meter::Area;
use tds_packet::{Fault, Payload, Stop};
use tds_rows::{read_nbc_rows, read_rows};
use tds_values::Charset;

/// How many bytes follow the token byte of a DONE, DONEPROC or DONEINPROC: Status, CurCmd and DoneRowCount.
const DONE_FIELDS: usize = 12;

/// The run of an export: what it reads and writes, the areas for its description, a token's body,
/// the first error's text and what is kept for a moment, and its progress.
#[derive(Drop)]
pub(crate) struct Exporter<'a, 'p, 's, R, W> {
    payload: &'a mut Payload<'p, R>,
    sink: &'a mut Sink<'s, W>,
    description: &'a mut Area,
    token: &'a mut Area,
    notice: &'a mut Area,
    small: &'a mut Area,
    charset: Charset,
    progress: Progress,
}

impl<'a, 'p, 's, R: Read, W: Write> Exporter<'a, 'p, 's, R, W> {
    // Reads a COLMETADATA after its token byte, and puts the header line of its set.
    fn metadata(&mut self) -> Result<(), Stop>
        requires { IsInToken self.old }
        ensures { StepRead R.remaining W.contents in_metadata self.old self.new result }
    {
        let described = self.progress.described;
        if let Described::NoMetadata = gather_next(self.payload, self.description, described)? {
            self.progress.described = false;
            return Ok(());
        }
        let columns = Columns::view(self.description.bytes());
        put_header(self.sink, self.progress.report.sets > 0, columns)?;
        self.progress.report.sets += 1;
        self.progress.described = true;
        Ok(())
    }

    // Reads a ROW after its token byte and the ROWs that follow it in its packet, and puts their lines.
    fn rows(&mut self) -> Result<(), Stop>
        requires begun { IsInToken self.old }
        requires described { self.old.progress.described ≡ true }
        ensures { let columns = columns_of self.old.description.now.bytes in
            StepRead R.remaining W.contents (in_row self.old.charset columns) self.old self.new result }
    {
        let columns = Columns::view(self.description.bytes());
        let count = read_rows(self.payload, columns, self.charset, self.small, self.sink)?;
        self.progress.report.rows += count;
        Ok(())
    }

    // Reads an NBCROW after its token byte and the NBCROWs that follow it in its packet, and puts their lines.
    // A bitmap is in the token area.
    fn nbc_rows(&mut self) -> Result<(), Stop>
        requires begun { IsInToken self.old }
        requires described { self.old.progress.described ≡ true }
        ensures { let columns = columns_of self.old.description.now.bytes in
            StepRead R.remaining W.contents (in_nbc_row columns) self.old self.new result }
    {
        let columns = Columns::view(self.description.bytes());
        let rows = read_nbc_rows(
            self.payload,
            columns,
            self.charset,
            self.token,
            self.small,
            self.sink,
        )?;
        self.progress.report.rows += rows;
        Ok(())
    }

    // Reads a DONE or DONEPROC after its token byte (MS-TDS, DONE).
    fn done(&mut self) -> Result<(), Stop>
        requires { IsInToken self.old }
        ensures { StepRead R.remaining W.contents in_done self.old self.new result }
    {
        let mut fields = [0u8; DONE_FIELDS];
        self.payload.fill(&mut fields)?;
        // The lowest bit of Status, DONE_MORE, says that more results follow.
        self.progress.is_final = fields[0] % 2 == 0;
        Ok(())
    }

    // Reads a DONEINPROC after its token byte, and keeps nothing of it (MS-TDS, DONEINPROC).
    fn done_in_proc(&mut self) -> Result<(), Stop>
        requires { IsInToken self.old }
        ensures { StepRead R.remaining W.contents in_done_in_proc self.old self.new result }
    {
        self.payload.pass(DONE_FIELDS)?;
        Ok(())
    }

    // Reads a RETURNSTATUS after its token byte (MS-TDS, RETURNSTATUS).
    fn return_status(&mut self) -> Result<(), Stop>
        requires { IsInToken self.old }
        ensures { StepRead R.remaining W.contents in_status self.old self.new result }
    {
        let mut value = [0u8; 4];
        self.payload.fill(&mut value)?;
        let status = LittleEndian::read_i32(&value);
        self.progress.report.return_status = Some(status);
        Ok(())
    }

    // Passes over an ORDER or ENVCHANGE after its token byte: a Length, and a body of that many bytes
    // (MS-TDS, ORDER and ENVCHANGE).
    fn skip(&mut self) -> Result<(), Stop>
        requires { IsInToken self.old }
        ensures leaves { LeavesRun self.old self.new result }
        ensures gives { (which : Bodied) → is_notice which ≡ false →
            BodyRead R.remaining W.contents (in_length which) self.old self.new result }
    {
        let mut length = [0u8; 2];
        self.payload.fill(&mut length)?;
        let length = LittleEndian::read_u16(&length);
        self.payload.pass(usize::from(length))?;
        Ok(())
    }

    // Reads an ERROR after its token byte. Keeps the first one, and puts its message into the notice
    // area (MS-TDS, ERROR).
    fn error(&mut self) -> Result<(), Stop>
        requires { IsInToken self.old }
        ensures { StepRead R.remaining W.contents (in_length AnError) self.old self.new result }
    {
        if self.progress.report.errors > 0 {
            pass_notice(self.payload, self.token)?;
            self.progress.report.errors += 1;
            return Ok(());
        }
        take_notice(self.payload, self.token)?;
        self.progress.report.errors += 1;
        let body = self.token.bytes();
        self.progress.report.first_error = Some(error_of(body));
        self.notice.clear();
        utf16_into(message_of(body), self.notice);
        Ok(())
    }

    // Reads an INFO after its token byte (MS-TDS, INFO).
    fn info(&mut self) -> Result<(), Stop>
        requires { IsInToken self.old }
        ensures { StepRead R.remaining W.contents (in_length AnInfo) self.old self.new result }
    {
        pass_notice(self.payload, self.token)?;
        self.progress.report.infos += 1;
        Ok(())
    }

    // Passes over a RETURNVALUE after its token byte, and counts it (MS-TDS, RETURNVALUE).
    fn return_value(&mut self) -> Result<(), Stop>
        requires { IsInToken self.old }
        ensures { StepRead R.remaining W.contents in_return self.old self.new result }
    {
        pass_return(self.payload, self.small)?;
        self.progress.report.return_values += 1;
        Ok(())
    }

    // Reads a token of this kind after its first byte.
    fn body(&mut self, kind: TokenKind) -> Result<(), Stop>
        requires begun { IsInToken self.old }
        requires described { IsRow kind → self.old.progress.described ≡ true }
        ensures { let columns = columns_of self.old.description.now.bytes in
            StepRead R.remaining W.contents (in_kind self.old.charset columns kind) self.old self.new result }
    {
        match kind {
            TokenKind::Metadata => self.metadata(),
            TokenKind::Row => self.rows(),
            TokenKind::NbcRow => self.nbc_rows(),
            TokenKind::Done => self.done(),
            TokenKind::DoneInProc => self.done_in_proc(),
            TokenKind::ReturnStatus => self.return_status(),
            TokenKind::Order | TokenKind::EnvChange => self.skip(),
            TokenKind::Error => self.error(),
            TokenKind::Info => self.info(),
            TokenKind::ReturnValue => self.return_value(),
        }
    }

    // Reads the next token. Returns `false` if the message is over.
    fn token(&mut self) -> Result<bool, Stop>
        requires { IsRunning self.old }
        ensures leaves { LeavesRun self.old self.new result }
        ensures further { IfOk result (λ more. more ≡ true → Advances self.old self.new) }
        ensures gives { TokenRead R.remaining W.contents self.old self.new result }
    {
        let Some(byte) = next_byte(self.payload)? else {
            return Ok(false);
        };
        let place = self.payload.place() - 1;
        match judge_token(byte, self.progress.described) {
            Ok(kind) => {
                self.progress.is_final = false;
                self.body(kind)?;
                Ok(true)
            }
            Err(fault) => Err(Stop::in_payload(fault, place)),
        }
    }

    // Reads all tokens, puts and delivers their text, and returns the report.
    fn run(&mut self) -> Result<Report, Stop>
        requires { IsRunning self.old }
        ensures leaves { LeavesRun self.old self.new result }
        ensures gives { WholeRead R.remaining W.contents self.old self.new result }
    {
        'tokens: while self.token()? {}
        if !self.progress.is_final {
            let place = self.payload.place();
            return Err(Stop::in_payload(Fault::EndWithoutDone, place));
        }
        self.sink.finish()?;
        Ok(Report {
            written: self.sink.delivered(),
            ..self.progress.report
        })
    }
}

/// Reads a response, puts and delivers its text, and returns the report.
pub(crate) fn read_response<R: Read, W: Write>(
    payload: &mut Payload<R>,
    sink: &mut Sink<W>,
    description: &mut Area,
    token: &mut Area,
    notice: &mut Area,
    small: &mut Area,
    charset: Charset,
) -> Result<Report, Stop>
    requires { CanBegin payload.old sink.old description.old token.old notice.old small.old }
    ensures payload { LeavesPayload payload.old payload.new result }
    ensures sink { LeavesSink sink.old sink.new result }
    ensures areas { KeepsRooms (lent description.old token.old notice.old small.old)
        (lent description.new token.new notice.new small.new) }
    ensures gives { let at = view R.remaining W.contents in
        ResponseRead charset (at payload.old sink.old description.old notice.old)
        (at payload.new sink.new description.new notice.new) result }
{
    let mut run = Exporter {
        payload,
        sink,
        description,
        token,
        notice,
        small,
        charset,
        progress: Progress::new(),
    };
    run.run()
}
