//! Replies as they are printed, and what ends a run.
ghost use Rattle.std.specs.Prelude.{◌≡◌, [], ◌∷◌, ◌++◌, codes, None, Some};
ghost use Rattle.zr_base.specs.declared.refusal.Refusal.TheVariants as refusal;
ghost use Rattle.zr_base.specs.declared.space.DevState.TheVariants as state;
ghost use Rattle.zr_script.specs.declared.reply.Reply.TheVariants as reply;
ghost use Rattle.zr_script.specs.Lines.{lines_of};
ghost use Rattle.zr_script.specs.ReplyText.{reply_text, list_line, last_line, BadLine, DiskFault, InputLimit};

/// Replies of one line.
pub fn the_texts_of_replies()
    ensures ok { reply_text reply.Done ≡ codes "ok" ++ 10 ∷ [] }
    ensures data { reply_text (reply.Data (97 ∷ 98 ∷ 99 ∷ [])) ≡ codes "data 616263" ++ 10 ∷ [] }
    ensures synced { reply_text (reply.Synced 2) ≡ codes "synced 2" ++ 10 ∷ [] }
    ensures cancelled { reply_text (reply.Cancelled 0) ≡ codes "cancelled 0" ++ 10 ∷ [] }
    ensures ended { reply_text reply.Ended ≡ codes "done" ++ 10 ∷ [] }
{}

/// Refusals with their fields.
pub fn the_texts_of_refusals()
    ensures range { reply_text (reply.No refusal.OutOfRange) ≡ codes "refused 5 out of range" ++ 10 ∷ [] }
    ensures room { reply_text (reply.No (refusal.NoRoom 5 3)) ≡ codes "refused 7 no room needed 5 free 3" ++ 10 ∷ [] }
    ensures in_use { reply_text (reply.No (refusal.DeviceInUse 0)) ≡ codes "refused 17 device in use slot 0" ++ 10 ∷ [] }
    ensures size { reply_text (reply.No (refusal.DeviceSize 1048576)) ≡ codes "refused 18 device size size 1048576" ++ 10 ∷ [] }
    ensures missing { reply_text (reply.No (refusal.MissingDevice 1 1)) ≡ codes "refused 21 missing device index 1 txg 1" ++ 10 ∷ [] }
    ensures none { reply_text (reply.No refusal.NoPoolOnDevices) ≡ codes "refused 22 no pool on the devices" ++ 10 ∷ [] }
    ensures rule { reply_text (reply.No (refusal.BadRoot 4)) ≡ codes "refused 24 bad root rule 4" ++ 10 ∷ [] }
    ensures group { reply_text (reply.No (refusal.GroupNotKept 3)) ≡ codes "refused 25 group not kept oldest 3" ++ 10 ∷ [] }
    ensures version { reply_text (reply.No (refusal.UnknownVersion 3)) ≡ codes "refused 26 version found 3" ++ 10 ∷ [] }
{}

/// The line of a device that is gone, and the last lines of runs.
pub fn the_lines_of_tables_and_ends()
    ensures gone { list_line (record { index = 0; path = None; state = state.Gone; units = 0; allocated = 0; checkpointed = 0; deferred = 0; free = 0 })
        ≡ codes "dev 0 - gone 0 0 0 0 0" ++ 10 ∷ [] }
    ensures bad { last_line (BadLine 1) ≡ codes "bad line 1" ++ 10 ∷ [] }
    ensures fault { last_line DiskFault ≡ codes "stopped disk fault" ++ 10 ∷ [] }
    ensures limit { last_line InputLimit ≡ codes "stopped input limit" ++ 10 ∷ [] }
{}

/// Each line feed ends a line, and bytes behind the last are a line.
pub fn the_lines_of_an_input()
    ensures none { lines_of [] ≡ [] }
    ensures two { lines_of (97 ∷ 10 ∷ 98 ∷ []) ≡ (97 ∷ []) ∷ ((98 ∷ []) ∷ []) }
    ensures empty { lines_of (97 ∷ 10 ∷ 10 ∷ []) ≡ (97 ∷ []) ∷ ([] ∷ []) }
{}
